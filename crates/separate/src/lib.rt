// Separate routes to one receiver: a flow of so many routes, found by adding one at a time and
// re-laying earlier ones, and the eight bytes of each of its routes.
#![tactic(auto)]

mod changes;
pub mod lowest;
pub mod search;
mod sides;
pub mod trail;
