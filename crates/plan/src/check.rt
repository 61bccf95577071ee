// The plan check: the blocks in the order due, and in each block its commands in the order due.
ghost use Rattle.std.specs.Prelude.{◌≡◌, [], ◌∷◌, ℕ, cond, not, ◌&&◌, ◌||◌, ◌+◌, ◌≤◌, ◌<◌, eqb, length, get_or, IfOk};
ghost use Rattle.refusal.specs.Refused.{plan_refusal, number_of, place_of};
ghost use Rattle.sets.specs.Sets.{minus};
ghost use Rattle.sets.specs.Members.{members};
ghost use Rattle.network.specs.Rows.{links_of};
ghost use Rattle.route.specs.Commands.{width, is_cut};
ghost use Rattle.plan.specs.Due.{blocks_of, due, fan, to_one, pairs};
ghost use Rattle.plan.specs.Ahead.{parts};
ghost use Rattle.plan.specs.Check.{Progress, is_due, one_route, check_group, all_linked, is_report, check_block, check_blocks, check_end, check_on, check_plan};
ghost use Rattle.plan.specs.Answers.{progress_of, due_then, then_of, mark_of, command_of, group_of, due_of, groups_in, reports_in, rest_in, network_is, answered_of, checked_of};

use crate::due;
use crate::site::{Reached, Site};
use network::{Network, links};
use refusal::{PlanGround, Refusal};
use route::command;

// Where a route of a block leads: from A to the others of S, within S, or from S to the others of
// V−F.
#[derive(Clone, Copy, Drop)]
pub(crate) enum Kind {
    Inward,
    Among,
    Outward,
}

impl Kind {
    fn command(self) -> u8
        ensures { result ≡ command_of self }
    {
        match self {
            Kind::Inward => 17,
            Kind::Among => 18,
            Kind::Outward => 19,
        }
    }
}

// What a plan has beside routes.
#[derive(Clone, Copy, Drop)]
pub(crate) enum Mark {
    Block,
    Report,
    End,
}

impl Mark {
    fn command(self) -> u8
        ensures { result ≡ mark_of self }
    {
        match self {
            Mark::Block => 16,
            Mark::Report => 20,
            Mark::End => 21,
        }
    }
}

// The separate routes that are due to one receiver.
#[derive(Clone, Copy, Drop)]
pub(crate) struct Group {
    pub(crate) kind: Kind,
    pub(crate) sources: u8,
    pub(crate) receiver: u8,
    pub(crate) count: usize,
}

// At this place there is the command that is due, with its operands.
fn due_here(plan: &[u8], at: usize, mark: Mark) -> Result<(), PlanGround>
    ensures gives { (next : Progress) → due_then next result ≡ is_due plan.now at (mark_of mark) next }
    ensures whole { IfOk result (λ _. at + width (mark_of mark) ≤ length plan.now) }
{
    if command::is_cut(plan, at) {
        return Err(PlanGround::Cut(at));
    }
    if plan[at] != mark.command() {
        return Err(PlanGround::NotDue(at));
    }
    Ok(())
}

// At this place there is a route's command, the one due, with all of its operand. Commands of routes
// are of one width, so that the one due tells where the operand ends.
fn is_route_due(plan: &[u8], at: usize, kind: Kind) -> bool
    ensures { result ≡ (not (is_cut plan.now at) && eqb (get_or plan.now at 0) (command_of kind)) }
{
    if at < plan.len() {
        if plan.len() - at < 9 {
            return false;
        }
        return plan[at] == kind.command();
    }
    false
}

// The ground where the command due is not there.
fn not_due(plan: &[u8], at: usize) -> PlanGround
    ensures { (number_of (plan_refusal result) ≡ cond (is_cut plan.now at) 2 7) × (place_of (plan_refusal result) ≡ at) }
{
    if command::is_cut(plan, at) {
        return PlanGround::Cut(at);
    }
    PlanGround::NotDue(at)
}

// The servers of the route at this place, which is the one due and keeps the rules on its own. Inlined,
// so that they stay in a register: a plan check is a sixth faster so.
#[inline(always)]
fn route_at(site: &Site, plan: &[u8], at: usize, group: Group) -> Result<u8, PlanGround>
    ensures gives { (on : ℕ → Progress) → then_of on result ≡ one_route site.now.sound (links_of site.now.rows) plan.now (group_of group) at on }
    ensures whole { IfOk result (λ _. at + 9 ≤ length plan.now) }
{
    if is_route_due(plan, at, group.kind) {
        let first = at + 1;
        let servers = route::check_route(
            site.sound,
            &site.rows,
            group.sources,
            group.receiver,
            &plan[first..],
        );
        if servers == 0 {
            return Err(PlanGround::Route(at));
        }
        return Ok(servers);
    }
    Err(not_due(plan, at))
}

// The next routes to one receiver: each is due, keeps the rules on its own, and shares nothing but
// the receiver with those before it.
fn check_group(
    site: &Site,
    plan: &[u8],
    start: Reached,
    group: Group,
) -> Result<Reached, PlanGround>
    ensures { progress_of result ≡ check_group site.now.sound (links_of site.now.rows) plan.now (group_of group) group.count start.at start.carriages 0 }
{
    let mut at = start.at;
    let mut carriages = start.carriages;
    let mut used: u8 = 0;
    // Kept: the place goes on by hand, here and in `check_cuts`, since it is what a refusal names.
    for k in 0..group.count {
        let servers = route_at(site, plan, at, group)?;
        let others = sets::minus(servers, sets::single(group.receiver));
        let shared = sets::meet(used, others);
        if shared != 0 {
            return Err(PlanGround::Shared(at));
        }
        used = sets::union(used, others);
        at += 9;
        carriages += 1;
    }
    Ok(Reached { at, carriages })
}

// One route within S, by itself: there is none that it could share a server with.
// Kept: a twin of `check_group` at one route, for a plan check by that one takes a sixth longer.
fn check_one(
    site: &Site,
    plan: &[u8],
    start: Reached,
    sources: u8,
    receiver: u8,
) -> Result<Reached, PlanGround>
    ensures { progress_of result ≡ check_group site.now.sound (links_of site.now.rows) plan.now (group_of (record { kind = Kind.Among; sources = sources; receiver = receiver; count = 1 })) 1 start.at start.carriages 0 }
{
    let group = Group {
        kind: Kind::Among,
        sources,
        receiver,
        count: 1,
    };
    route_at(site, plan, start.at, group)?;
    Ok(Reached {
        at: start.at + 9,
        carriages: start.carriages + 1,
    })
}

// f+1 routes to each receiver of the set, receivers ascending, from the sources.
fn check_fan(
    site: &Site,
    plan: &[u8],
    start: Reached,
    kind: Kind,
    sources: u8,
    receivers: u8,
) -> Result<Reached, PlanGround>
    ensures { progress_of result ≡ groups_in site.now plan.now (fan site.now.f (command_of kind) sources (members receivers)) start }
{
    let count = (site.f as usize) + 1;
    let mut reached = start;
    for receiver in sets::ascending(receivers) {
        let group = Group {
            kind,
            sources,
            receiver,
            count,
        };
        reached = check_group(site, plan, reached, group)?;
    }
    Ok(reached)
}

// One route to the receiver from each other server of the quorum, sources ascending.
fn check_to_one(
    site: &Site,
    plan: &[u8],
    start: Reached,
    quorum: u8,
    receiver: u8,
) -> Result<Reached, PlanGround>
    ensures { progress_of result ≡ groups_in site.now plan.now (to_one receiver (members quorum)) start }
{
    let mut reached = start;
    for source in sets::ascending(sets::minus(quorum, sets::single(receiver))) {
        reached = check_one(site, plan, reached, sets::single(source), receiver)?;
    }
    Ok(reached)
}

// One route for each receiver of the quorum and each other server of it as the source.
fn check_pairs(site: &Site, plan: &[u8], start: Reached, quorum: u8) -> Result<Reached, PlanGround>
    ensures { progress_of result ≡ groups_in site.now plan.now (pairs (members quorum) (members quorum)) start }
{
    let mut reached = start;
    for receiver in sets::ascending(quorum) {
        reached = check_to_one(site, plan, reached, quorum, receiver)?;
    }
    Ok(reached)
}

// Every server of the set has a link to k.
fn all_linked(rows: &[u8; 8], k: u8, set: u8) -> bool
    requires { k < 8 }
    ensures { result ≡ all_linked (links_of rows.now) k (members set) }
{
    for m in sets::ascending(set) {
        if !sets::member(rows[m as usize], k) {
            return false;
        }
    }
    true
}

// The reporters are exactly f+1 servers of V−F, each with a link to k.
fn is_report(site: &Site, k: u8, reporters: u8) -> bool
    requires { k < 8 }
    ensures { result ≡ is_report site.now.n site.now.f (links_of site.now.rows) site.now.fault k reporters }
{
    sets::within(reporters, site.sound)
        && sets::size(reporters) as usize == (site.f as usize) + 1
        && all_linked(&site.rows, k, reporters)
}

// The report to server k.
fn check_report(site: &Site, plan: &[u8], start: Reached, k: u8) -> Result<Reached, PlanGround>
    requires { k < 8 }
    ensures { progress_of result ≡ reports_in site.now plan.now (k ∷ []) start }
{
    let at = start.at;
    due_here(plan, at, Mark::Report)?;
    if plan[at + 1] == k && is_report(site, k, plan[at + 2]) {
        let count = (site.f as usize) + 1;
        return Ok(Reached {
            at: at + 3,
            carriages: start.carriages + count,
        });
    }
    Err(PlanGround::Reporters(at))
}

// A report to each server of F, ascending.
fn check_reports(site: &Site, plan: &[u8], start: Reached) -> Result<Reached, PlanGround>
    ensures { progress_of result ≡ reports_in site.now plan.now (members site.now.fault) start }
{
    let mut reached = start;
    for k in sets::ascending(site.fault) {
        reached = check_report(site, plan, reached, k)?;
    }
    Ok(reached)
}

// The commands of a block after its opening.
fn check_rest(site: &Site, block: &[u8], side: u8, quorum: u8) -> Result<Reached, PlanGround>
    ensures { progress_of result ≡ rest_in site.now block.now side quorum }
{
    let opened = Reached {
        at: 4,
        carriages: 0,
    };
    let receivers = sets::minus(quorum, side);
    let inward = check_fan(site, block, opened, Kind::Inward, side, receivers)?;
    let among = check_pairs(site, block, inward, quorum)?;
    let others = sets::minus(site.sound, quorum);
    let outward = check_fan(site, block, among, Kind::Outward, quorum, others)?;
    check_reports(site, block, outward)
}

// A is one of the two parts of V−F, of which `part` is one.
fn is_side(sound: u8, part: u8, side: u8) -> bool
    ensures { result ≡ (eqb side part || eqb side (minus sound part)) }
{
    side == part || side == sets::minus(sound, part)
}

// The block that starts here, with the F and the cut that are due; the places are counted from its
// 10 command.
fn check_block(site: &Site, part: u8, block: &[u8]) -> Result<Reached, PlanGround>
    ensures { progress_of result ≡ check_block site.now.n site.now.f (links_of site.now.rows) block.now (due_of site.now.fault part) }
{
    due_here(block, 0, Mark::Block)?;
    let side = block[2];
    if block[1] != site.fault || !is_side(site.sound, part, side) {
        return Err(PlanGround::NotDue(0));
    }
    let quorum = block[3];
    if quorum == 0 || !sets::within(quorum, site.sound) {
        return Err(PlanGround::Quorum(0));
    }
    check_rest(site, block, side, quorum)
}

// The ground, with its place counted from `at` bytes earlier.
// Kept: each ground is made anew, since the block check counts its places from its 10 command (its
// contract, as the plan's part that it takes starts there).
fn later(ground: PlanGround, at: usize) -> PlanGround
    requires { (1 < number_of (plan_refusal ground)) × (at + place_of (plan_refusal ground) ≤ usize.MAX) }
    ensures { (number_of (plan_refusal result) ≡ number_of (plan_refusal ground)) × (place_of (plan_refusal result) ≡ at + place_of (plan_refusal ground)) }
{
    match ground {
        PlanGround::TooLong => PlanGround::TooLong,
        PlanGround::Cut(place) => PlanGround::Cut(at + place),
        PlanGround::Trailing(place) => PlanGround::Trailing(at + place),
        PlanGround::NotDue(place) => PlanGround::NotDue(at + place),
        PlanGround::Quorum(place) => PlanGround::Quorum(at + place),
        PlanGround::Route(place) => PlanGround::Route(at + place),
        PlanGround::Shared(place) => PlanGround::Shared(at + place),
        PlanGround::Reporters(place) => PlanGround::Reporters(at + place),
    }
}

// The blocks of one F, by the part of V−F that holds its lowest server, ascending.
fn check_cuts(site: &Site, plan: &[u8], start: Reached) -> Result<Reached, PlanGround>
    requires { start.at ≤ length plan.now }
    ensures gives { progress_of result ≡ check_blocks site.now.n site.now.f (links_of site.now.rows) plan.now (blocks_of site.now.fault (parts site.now.sound)) start.at start.carriages }
    ensures inside { IfOk result (λ r. r.at ≤ length plan.now) }
{
    let mut at = start.at;
    let mut carriages = start.carriages;
    for part in due::parts(site.sound) {
        match check_block(site, part, &plan[at..]) {
            Ok(block) => {
                at += block.at;
                carriages += block.carriages;
            }
            Err(ground) => return Err(later(ground, at)),
        }
    }
    Ok(Reached { at, carriages })
}

// For each server those that it has a link to.
fn rows(links: [[bool; 8]; 8]) -> [u8; 8]
    ensures { links_of result ≡ links }
{
    links::rows(links)
}

// The blocks of each F of at most f servers, ascending.
fn check_blocks(network: Network, plan: &[u8]) -> Result<Reached, PlanGround>
    ensures { progress_of result ≡ check_blocks network.n network.f network.links plan.now (due network.n network.f) 0 0 }
{
    let rows = rows(network.links);
    let servers = sets::full(network.n);
    let mut reached = Reached {
        at: 0,
        carriages: 0,
    };
    for fault in due::faults(network.n, network.f) {
        let site = Site {
            n: network.n,
            f: network.f,
            rows,
            fault,
            sound: sets::minus(servers, fault),
        };
        reached = check_cuts(&site, plan, reached)?;
    }
    Ok(reached)
}

// 15 after the last block, and nothing after it.
fn check_end(plan: &[u8], reached: Reached) -> Result<Reached, PlanGround>
    ensures { progress_of result ≡ check_end plan.now reached.at reached.carriages }
{
    let at = reached.at;
    due_here(plan, at, Mark::End)?;
    let end = at + 1;
    if end < plan.len() {
        return Err(PlanGround::Trailing(end));
    }
    Ok(Reached {
        at: end,
        carriages: reached.carriages,
    })
}

// How many ways there are of cutting V−F.
fn cuts(sound: u8) -> usize
    ensures { result ≡ length (parts sound) }
{
    due::parts(sound).count()
}

// How many blocks a plan has.
fn blocks_due(n: u8, f: u8) -> usize
    requires { n ≤ 8 }
    ensures { result ≡ length (due n f) }
{
    let servers = sets::full(n);
    let mut total: usize = 0;
    for fault in due::faults(n, f) {
        total += cuts(sets::minus(servers, fault));
    }
    total
}

// How many blocks and carriages a plan has.
#[derive(Clone, Copy, Drop)]
pub struct Totals {
    pub blocks: usize,
    pub carriages: usize,
}

// The plan for the network.
fn check_on(network: Network, plan: &[u8]) -> Result<Totals, PlanGround>
    ensures { answered_of result ≡ check_on (network_is network) plan.now }
{
    if 1048576 < plan.len() {
        return Err(PlanGround::TooLong);
    }
    let blocks = check_blocks(network, plan)?;
    let end = check_end(plan, blocks)?;
    Ok(Totals {
        blocks: blocks_due(network.n, network.f),
        carriages: end.carriages,
    })
}

// The plan check: how many blocks and carriages the plan has, or the one refusal, the card's first.
pub fn check_plan(card: &[u8], plan: &[u8]) -> Result<Totals, Refusal>
    ensures { checked_of result ≡ check_plan card.now plan.now }
{
    let network = Network::read(card)?;
    let totals = check_on(network, plan)?;
    Ok(totals)
}
