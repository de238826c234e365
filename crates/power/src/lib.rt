// Spec 7.1, 7.2, 7.4: the volt-var and volt-watt curves, and the watts that the nameplate leaves beside vars.
#![tactic(auto)]

mod curves;
mod rating;

pub use curves::{volt_var, volt_watt};
pub use rating::within_nameplate;
