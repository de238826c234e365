// The page to open first: what is proved of the board. No code: the statements stand in specs/, their proofs in proofs/.
#![tactic(auto)]
