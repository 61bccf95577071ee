// Where the entry side of a server leads to, and which leaving sides lead to the receiver.
ghost use Rattle.std.specs.Prelude.{◌≡◌, ◌<◌};
ghost use Rattle.flow.specs.Search.{feeder, behind, last_in, server_at};

use flow::Flow;

// The lowest server from which a route goes to x.
fn feeder(flow: Flow, x: u8) -> Option<u8>
    ensures { result ≡ server_at (feeder flow x) }
{
    for p in 0..8usize {
        if sets::member(flow.out[p], x) {
            return Some(p as u8);
        }
    }
    None
}

// The server to whose leaving side the entry side of x leads; none if x is where its route starts.
#[tactic(auto, unfolding(flow::specs::Search::behind))]
pub(crate) fn behind(flow: Flow, x: u8) -> Option<u8>
    requires { x < 8 }
    ensures { result ≡ server_at (behind flow x) }
{
    if sets::member(flow.used, x) {
        return feeder(flow, x);
    }
    Some(x)
}

// Those near r that a route may pass before it: the other servers of `within`; none if r is not in
// `within` itself.
#[tactic(auto, unfolding(flow::specs::Search::last_in))]
pub(crate) fn last_in(near: u8, within: u8, r: u8) -> u8
    ensures { result ≡ last_in near within r }
{
    if sets::member(within, r) {
        let others = sets::minus(within, sets::single(r));
        return sets::meet(others, near);
    }
    0
}
