// Theorems on the definitions of `scope`: see specs/. There is no code here.

#![tactic(auto)]
