// The routes of a flow, a step at a time.
ghost use Rattle.std.specs.Prelude.{◌≡◌, get_or};
ghost use Rattle.sets.specs.Sets.{lowest};
ghost use Rattle.rules.specs.Blocks.{operand};
ghost use Rattle.flow.specs.Routes.{trail};

use flow::Flow;

// The server that a route goes to from x; 8 if there is none.
// Kept: `operand` promises the bytes of `trail`, which goes on from 8 where no server follows.
fn following(flow: Flow, x: u8) -> u8
    ensures { result ≡ lowest (get_or flow.out x 0) }
{
    if x < 8 {
        return sets::lowest(flow.out[x as usize]);
    }
    8
}

// The eight bytes of the route from `start`: the servers up to the receiver, then the fill. The
// eighth server can only be the receiver.
pub fn operand(flow: Flow, receiver: u8, start: u8) -> [u8; 8]
    ensures { result ≡ operand (trail flow receiver 7 start) }
{
    let mut route = [0xffu8; 8];
    let mut x = start;
    for i in 0..7usize {
        route[i] = x;
        if sets::member(flow.ends, x) {
            route[i + 1] = receiver;
            return route;
        }
        x = following(flow, x);
    }
    route[7] = receiver;
    route
}
