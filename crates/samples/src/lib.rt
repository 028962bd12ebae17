// No code: outside vectors against the definitions of scope.

#![tactic(auto)]
