// A flow before a route is sought, and a flow changed by one step of the search.
ghost use Rattle.std.specs.Prelude.{◌≡◌, ◌<◌};
ghost use Rattle.flow.specs.Search.{straight, with_start, with_end, step_in, step_out};

use flow::Flow;

// A route straight to the receiver from each of these servers.
#[tactic(auto, unfolding(flow::specs::Search::straight))]
pub(crate) fn straight(servers: u8) -> Flow
    ensures { result ≡ straight servers }
{
    Flow {
        used: servers,
        start: servers,
        ends: servers,
        out: [0u8; 8],
    }
}

// A route starts at x.
#[tactic(auto, unfolding(flow::specs::Search::with_start))]
pub(crate) fn with_start(flow: Flow, x: u8) -> Flow
    ensures { result ≡ with_start x flow }
{
    Flow {
        start: sets::union(flow.start, sets::single(x)),
        ..flow
    }
}

// A route goes from x to the receiver.
#[tactic(auto, unfolding(flow::specs::Search::with_end))]
pub(crate) fn with_end(flow: Flow, x: u8) -> Flow
    ensures { result ≡ with_end x flow }
{
    Flow {
        ends: sets::union(flow.ends, sets::single(x)),
        ..flow
    }
}

// The step from the entry side of x to the leaving side of q: the new route passes x, or takes over
// what came from q to x.
#[tactic(auto, unfolding(flow::specs::Search::step_in, flow::specs::Search::with_use, flow::specs::Search::without_step))]
pub(crate) fn step_in(mut flow: Flow, x: u8, q: u8) -> Flow
    requires { q < 8 }
    ensures { result ≡ step_in x q flow }
{
    if q == x {
        flow.used = sets::union(flow.used, sets::single(x));
    } else {
        let at = q as usize;
        flow.out[at] = sets::minus(flow.out[at], sets::single(x));
    }
    flow
}

// The step from the leaving side of x to the entry side of y: the new route goes on to y, or takes
// over what came to x.
#[tactic(auto, unfolding(flow::specs::Search::step_out, flow::specs::Search::without_use, flow::specs::Search::with_step))]
pub(crate) fn step_out(mut flow: Flow, x: u8, y: u8) -> Flow
    requires { x < 8 }
    ensures { result ≡ step_out x y flow }
{
    if y == x {
        flow.used = sets::minus(flow.used, sets::single(x));
    } else {
        let at = x as usize;
        flow.out[at] = sets::union(flow.out[at], sets::single(y));
    }
    flow
}
