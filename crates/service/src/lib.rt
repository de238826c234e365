// The by-value step: spec 6 to 8. Its public operations are `fresh`, `fresh_report` and `step::step`; the rest is for the
// crates above.
#![tactic(auto)]

pub mod step;

pub use freshboard::{fresh, fresh_report};
pub use step::step_accepted;
