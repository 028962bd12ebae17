// No code: document 02, E2 as definitions, and theorems on them. See specs/.

#![tactic(auto)]
