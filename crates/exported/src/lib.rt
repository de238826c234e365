// What is claimed of the exported functions in the words of their contracts, and its proof. No code.
#![tactic(auto)]
