// Small facts about tests, signed numbers, digits, refusals and lists, in proofs/, which the crates above cite. This crate has no code.
#![tactic(auto)]
