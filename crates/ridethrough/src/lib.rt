// The operating region of a reading (spec 6.7 to 6.9).
#![tactic(auto)]

pub mod regions;
