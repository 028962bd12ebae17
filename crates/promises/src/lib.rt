// No code: specs/ has what the contracts of the calls, those of `pelohuaki` and those that `pelohuaki_c` exports, promise together.

#![tactic(auto)]
