// What the rules read from a sample, and the checks of a slice (spec 4.2).
#![tactic(auto)]

pub mod reading;
