// Laws of the voltages and of whole roots, in proofs/. This crate has no code.
#![tactic(auto)]
