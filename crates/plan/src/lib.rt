// The route plan: order of blocks, block check, plan check.
#![tactic(auto)]

pub mod check;
pub mod due;
pub mod scan;
mod site;
