// Separate routes between the servers of a card: so many that f faulty servers leave one of them
// clear, written into lent memory; or the few servers that every route meets.
#![tactic(auto)]

mod write;

ghost use Rattle.std.specs.Prelude.{◌≡◌, ◌+◌, ◌<◌};
ghost use Rattle.sets.specs.Sets.{full, minus};
ghost use Rattle.network.specs.Links.{linked_in};
ghost use Rattle.network.specs.Rows.{rows_of};
ghost use Rattle.flow.specs.Search.{flow_to, sought_of};
ghost use Rattle.flow.specs.Theorems.{sought};
ghost use Rattle.routes.specs.Routing.{call_fits, answer_for, operands_of, after_routes};
ghost use Rattle.routes.specs.Answers.{routing_of, Answered};

use crate::write::write_routes;
use flow::Searched;
use network::{Network, links};
use refusal::{CallGround, Refusal};
use separate::search;
use split::sources;

#[derive(Clone, Copy, Drop)]
pub enum Routing {
    // How many routes were written, eight bytes each.
    Routes { count: usize },
    // Not so many are there: fewer servers than that, which every route meets.
    Cut { servers: u8 },
}

// What is asked for: routes from the sources to the receiver that pass no faulty server.
#[derive(Clone, Copy, Drop)]
struct Call {
    faults: u8,
    sources: u8,
    receiver: u8,
}

impl Call {
    // The faulty set has at most f servers, and it, the sources and the receiver are servers of V.
    fn fits(self, network: Network) -> bool
        ensures { result ≡ call_fits network.n network.f self.faults self.sources self.receiver }
    {
        let servers = sets::full(network.n);
        sets::size(self.faults) <= network.f
            && sets::within(self.faults, servers)
            && sets::within(self.sources, servers)
            && self.receiver < network.n
    }

    // The search for f + 1 routes.
    fn search(self, network: Network) -> Result<Searched, Searched>
        requires { self.receiver < network.n }
        ensures { sought_of result ≡ flow_to (rows_of (linked_in network.links)) (minus (full network.n) self.faults) self.sources self.receiver (network.f + 1) }
    {
        let rows = links::rows(network.links);
        let into = sources::source_rows(network.links);
        let near = into[self.receiver as usize];
        let servers = sets::full(network.n);
        let within = sets::minus(servers, self.faults);
        let count = network.f + 1;
        search::flow_to(&rows, near, within, self.sources, self.receiver, count)
    }

    // The answer for this network.
    fn answer(self, network: Network, lent: &mut [u8]) -> Result<Routing, Refusal>
        ensures answer { routing_of result ≡ answer_for network.n network.f network.links self.faults self.sources self.receiver lent.old }
        ensures bytes { lent.new ≡ after_routes (routing_of result) (operands_of (sought network.n network.links self.faults self.sources self.receiver (network.f + 1))) lent.old }
    {
        if self.fits(network) {
            return match self.search(network) {
                Ok(found) => write_routes(found.flow, self.receiver, lent),
                Err(missed) => Ok(Routing::Cut {
                    servers: sets::minus(missed.entered, missed.left),
                }),
            };
        }
        Err(Refusal::Call(CallGround::FaultSet))
    }
}

// Reads the card and writes f + 1 routes from the sources to the receiver that share no server but it
// and pass no faulty one: their number, with the later bytes as they were. Or, with every lent byte as
// it was: fewer than f + 1 servers that every such route meets; or the refusal: the card's, or that a
// set has a server not in V or too many of them, or that the lent buffer is shorter than the routes.
pub fn separate_routes(
    card: &[u8],
    faults: u8,
    sources: u8,
    receiver: u8,
    lent: &mut [u8],
) -> Result<Routing, Refusal>
    ensures { Answered card.now faults sources receiver lent.old result lent.new }
{
    let network = Network::read(card)?;
    let call = Call {
        faults,
        sources,
        receiver,
    };
    call.answer(network, lent)
}
