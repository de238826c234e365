// What the rules' reading of lines accepts, said by writing lines out. No code: definitions in specs/, the laws in proofs/.
#![tactic(auto)]
