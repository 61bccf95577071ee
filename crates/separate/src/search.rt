// The search for one route more, and the flow that it ends with. A server but the receiver has an
// entry side and a leaving side, and one route at most goes from the one to the other. The flow goes
// down the search as it is, and is changed on the way back from the receiver only: so a try that
// finds nothing leaves nothing to undo.
ghost use Rattle.std.specs.Prelude.{◌≡◌, ◌<◌};
ghost use Rattle.flow.specs.Search.{ahead, enter, leave, seek, flow_by, sought_of};

use crate::{changes, lowest, sides};
use flow::{Flow, Searched};

// The allowance of a search: there are sixteen sides, and none is tried twice.
const SIDES: u8 = 17;

// Where routes go: row x has the servers that x has a link to, `inner` are those that a route may pass,
// and `last` those of them with a link to the receiver.
#[derive(Clone, Copy, Drop)]
struct Ground<'a> {
    rows: &'a [u8; 8],
    inner: u8,
    last: u8,
}

impl<'a> Ground<'a> {
    // The servers to whose entry side the leaving side of x leads: those linked from x that no route goes
    // to from x, and x itself if a route passes x.
    #[tactic(auto, unfolding(flow::specs::Search::ahead))]
    fn ahead(&self, flow: Flow, x: u8) -> u8
        requires { x < 8 }
        ensures { result ≡ ahead self.now.rows.now self.now.inner flow x }
    {
        let at = x as usize;
        let fresh = sets::minus(sets::meet(self.rows[at], self.inner), flow.out[at]);
        let back = sets::meet(flow.used, sets::single(x));
        sets::union(fresh, back)
    }

    // The search from the entry side of x: to its leaving side, or, if a route passes x, back to the
    // leaving side of the server before it.
    #[cycle(enter_leave)]
    fn enter(&self, allowance: u8, from: Searched, x: u8) -> Result<Searched, Searched>
        requires { x < 8 }
        ensures { sought_of result ≡ enter allowance self.now.rows.now self.now.inner self.now.last from.flow from.entered from.left x }
    {
        if allowance == 0 {
            return Err(from);
        }
        let seen = Searched {
            entered: sets::union(from.entered, sets::single(x)),
            ..from
        };
        if let Some(q) = sides::behind(from.flow, x) {
            if !sets::member(from.left, q) {
                let found = self.leave(allowance - 1, seen, q)?;
                return Ok(Searched {
                    flow: changes::step_in(found.flow, x, q),
                    ..found
                });
            }
        }
        Err(seen)
    }

    // The search from the leaving side of x: to the receiver, or to the entry sides of the servers ahead
    // in turn, x itself among them if a route passes x.
    #[cycle(enter_leave)]
    fn leave(&self, allowance: u8, from: Searched, x: u8) -> Result<Searched, Searched>
        requires { x < 8 }
        ensures { sought_of result ≡ leave allowance self.now.rows.now self.now.inner self.now.last from.flow from.entered from.left x }
    {
        if allowance == 0 {
            return Err(from);
        }
        let flow = from.flow;
        let seen = sets::union(from.left, sets::single(x));
        if sets::member(sets::minus(self.last, flow.ends), x) {
            return Ok(Searched {
                flow: changes::with_end(flow, x),
                left: seen,
                ..from
            });
        }
        let fewer = allowance - 1;
        let mut tried = Searched { left: seen, ..from };
        for y in sets::ascending(self.ahead(flow, x)) {
            if !sets::member(tried.entered, y) {
                match self.enter(fewer, Searched { flow, ..tried }, y) {
                    Ok(found) => {
                        return Ok(Searched {
                            flow: changes::step_out(found.flow, x, y),
                            ..found
                        });
                    }
                    Err(missed) => tried = missed,
                }
            }
        }
        Err(tried)
    }

    // The search from the entry sides of the sources in turn: the flow with one route more; or the flow
    // as it is, and the sides seen.
    fn seek(&self, sources: u8, flow: Flow) -> Result<Searched, Searched>
        ensures { sought_of result ≡ seek self.now.rows.now self.now.inner self.now.last sources flow }
    {
        let mut tried = Searched {
            flow,
            entered: 0,
            left: 0,
        };
        for x in sets::ascending(sources) {
            if !sets::member(tried.entered, x) {
                match self.enter(SIDES, Searched { flow, ..tried }, x) {
                    Ok(found) => {
                        return Ok(Searched {
                            flow: changes::with_start(found.flow, x),
                            ..found
                        });
                    }
                    Err(missed) => tried = missed,
                }
            }
        }
        Err(tried)
    }
}

// `count` routes in `within` from the sources to the receiver, where `near` are the servers with a link
// to it: straight from the lowest sources that are near, then one sought after the other; or the search
// that did not find one more.
// Kept: six parameters, which are those of `flow_by` and so of the theorems `Finds` and `Cuts`.
pub fn flow_to(
    rows: &[u8; 8],
    near: u8,
    within: u8,
    sources: u8,
    receiver: u8,
    count: u8,
) -> Result<Searched, Searched>
    ensures { sought_of result ≡ flow_by rows.now near within sources receiver count }
{
    let inner = sets::minus(within, sets::single(receiver));
    let last = sides::last_in(near, within, receiver);
    let ground = Ground { rows, inner, last };
    let starts = sets::meet(sources, inner);
    let first = lowest::lowest_of(sets::meet(starts, last), count);
    let laid = sets::size(first);
    let mut sought = Searched {
        flow: changes::straight(first),
        entered: 0,
        left: 0,
    };
    for _ in laid..count {
        sought = ground.seek(starts, sought.flow)?;
    }
    Ok(sought)
}
