// What follows from the definitions alone and the proofs of the parts cite. No code: the laws stand in proofs/.
#![tactic(auto)]
