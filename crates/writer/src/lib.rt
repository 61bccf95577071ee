// The plan writer: for every card without a bad split, a plan that the plan check accepts and than which
// none is shorter, written into lent memory.
#![tactic(auto)]

mod again;
mod cuts;
mod fault;
pub mod write;
