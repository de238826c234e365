// Spec 10.13, 10.14: the sample lines of a block, one after the other.
#![tactic(auto)]

pub mod sample_lines;
