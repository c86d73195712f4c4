// Theorems over the definitions that the promises cite. No code.
#![tactic(auto)]
