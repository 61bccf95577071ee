// The routes of a block, laid into lent memory.
ghost use Rattle.std.specs.Prelude.{◌≡◌, ◌≤◌, ◌<◌};
ghost use Rattle.sets.specs.Sets.{minus};
ghost use Rattle.sets.specs.Members.{members};
ghost use Rattle.rules.specs.Blocks.{encode_routes};
ghost use Rattle.rules.specs.Rules.{sources_for, pairs_of};
ghost use Rattle.flow.specs.Search.{sought_of};
ghost use Rattle.flow.specs.Routes.{routes_of};
ghost use Rattle.blocks.specs.Written.{routes_by, fans_by, mesh_by};
ghost use Rattle.blocks.specs.Placed.{Placed};

use crate::Site;
use crate::bytes::Place;
use flow::{Flow, Searched};
use separate::{search, trail};

// The flow that a search ends with, with all routes that it found.
#[tactic(auto, unfolding(flow::specs::Search::reached, flow::specs::Search::lost))]
fn flow_of(sought: Result<Searched, Searched>) -> Flow
    ensures { result ≡ (sought_of sought).flow }
{
    match sought {
        Ok(all) => all.flow,
        Err(fewer) => fewer.flow,
    }
}

impl<'a> Place<'a> {
    // The routes of a flow, by their starts ascending.
    fn put_routes(&mut self, command: u8, flow: Flow, receiver: u8)
        requires { self.old.at ≤ 900000 }
        ensures { Placed (encode_routes command (routes_of flow receiver)) 72 self.old self.new }
    {
        for x in sets::ascending(flow.start) {
            let route = trail::operand(flow, receiver, x);
            self.put_route(command, route);
        }
    }

    // The routes of 13: `count` from S to each other server of `sound`.
    pub(crate) fn put_fans(&mut self, site: &Site, quorum: u8)
        requires { self.old.at ≤ 800000 }
        ensures { Placed (encode_routes 19 (fans_by site.now.rows site.now.sources site.now.sound quorum site.now.count (members (minus site.now.sound quorum)))) 576 self.old self.new }
    {
        let others = sets::minus(site.sound, quorum);
        for r in sets::ascending(others) {
            let near = site.sources[r as usize];
            let sought = search::flow_to(&site.rows, near, site.sound, quorum, r, site.count);
            let flow = flow_of(sought);
            self.put_routes(19, flow, r);
        }
    }

    // The routes of 12 to one server of S from each other one.
    fn put_to_one(&mut self, site: &Site, quorum: u8, receiver: u8)
        requires { (self.old.at ≤ 800000) × (receiver < 8) }
        ensures { Placed (encode_routes 18 (mesh_by site.now.rows site.now.sources site.now.sound (sources_for receiver (members quorum)))) 576 self.old self.new }
    {
        let near = site.sources[receiver as usize];
        let others = sets::minus(quorum, sets::single(receiver));
        for s in sets::ascending(others) {
            let source = sets::single(s);
            let sought = search::flow_to(&site.rows, near, site.sound, source, receiver, 1);
            let flow = flow_of(sought);
            self.put_routes(18, flow, receiver);
        }
    }

    // The routes of 12: one for each server of S and each other one as its source.
    pub(crate) fn put_mesh(&mut self, site: &Site, quorum: u8)
        requires { self.old.at ≤ 700000 }
        ensures { Placed (encode_routes 18 (mesh_by site.now.rows site.now.sources site.now.sound (pairs_of (members quorum) (members quorum)))) 4608 self.old self.new }
    {
        for r in sets::ascending(quorum) {
            self.put_to_one(site, quorum, r);
        }
    }
}
