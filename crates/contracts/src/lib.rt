// Theorems over the contracts of the public functions. No code.
#![tactic(auto)]
