// The claims hold of a board by the rules, for any equipment with the facts of `Sound`. No code: the proofs stand in proofs/.
#![tactic(auto)]
