// The routes of a flow, written into lent memory: eight bytes each, by their sources ascending.
ghost use Rattle.std.specs.Prelude.{◌≡◌, ◌≤◌, length};
ghost use Rattle.facts.specs.Laid.{laid};
ghost use Rattle.sets.specs.Sets.{size};
ghost use Rattle.flow.specs.Routes.{routes, routes_of};
ghost use Rattle.routes.specs.Routing.{operands, answer_to, after_routes};
ghost use Rattle.routes.specs.Answers.{routing_of};

use crate::Routing;
use flow::Flow;
use refusal::{CallGround, Refusal};
use separate::trail;

// All routes of the flow, from the front on.
fn lay_routes(flow: Flow, receiver: u8, lent: &mut [u8])
    requires { length (operands (routes_of flow receiver)) ≤ length lent.old }
    ensures { lent.new ≡ laid 0 (operands (routes_of flow receiver)) lent.old }
{
    let mut at: usize = 0;
    // Kept: the place goes on by eight; over parts of eight bytes the routes would have to be gone over in step
    // with them, and the bytes after the last route be told from a part.
    for x in sets::ascending(flow.start) {
        let route = trail::operand(flow, receiver, x);
        lent[at..at + 8].copy_from_slice(&route);
        at += 8;
    }
}

// The routes of the flow, if the lent buffer has room for them.
pub(crate) fn write_routes(flow: Flow, receiver: u8, lent: &mut [u8]) -> Result<Routing, Refusal>
    ensures answer { routing_of result ≡ answer_to (size flow.start) (routes (routes_of flow receiver)) lent.old }
    ensures bytes { lent.new ≡ after_routes (routing_of result) (operands (routes_of flow receiver)) lent.old }
{
    let count = sets::size(flow.start) as usize;
    let bytes = 8 * count;
    if lent.len() < bytes {
        return Err(Refusal::Call(CallGround::Buffer));
    }
    lay_routes(flow, receiver, lent);
    Ok(Routing::Routes { count })
}
