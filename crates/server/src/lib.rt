// A server's own part in a run: it knows only itself. It asks what to send, hands in what arrived,
// and at the end asks for the decided bit.
#![tactic(auto)]

mod counts;
pub mod turn;
