// The mathematics of curves and of the nameplate. No code: the laws stand in proofs/.
#![tactic(auto)]
