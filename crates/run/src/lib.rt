// The run: Algorithm BC with a plan's choices, block by block.
#![tactic(auto)]

mod block;
pub mod call;
mod hearing;
mod values;
