// What a run and a server read of a plan alike: the opening command of a block, the way along a
// route, and what arrived. Every function takes any bytes.
#![tactic(auto)]

pub mod arrival;
pub mod opening;
pub mod ready_block;
pub mod ready_blocks;
pub mod ready_reports;
pub mod ready_route;
pub mod ready_routes;
pub mod walk;
