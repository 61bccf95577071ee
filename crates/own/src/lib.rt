// A server's own values and state, and the steps that it takes from what arrived for it: no plan.
#![tactic(auto)]

pub mod kind;
pub mod state;
pub mod step;
