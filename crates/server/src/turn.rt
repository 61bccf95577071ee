// The three calls of a server. Card and plan are checked in each, then the call is.
ghost use Rattle.std.specs.Prelude.{◌≡◌, ◌++◌, ◌≤◌, ◌<◌, length, drop, replicate, IfOk};
ghost use Rattle.part.specs.Own.{committed};
ghost use Rattle.part.specs.State.{next};
ghost use Rattle.part.specs.Calls.{site, site_of, block_of, values_due, start_call, ask_on, ask_call, commit_on, commit_call};
ghost use Rattle.carriage.specs.Openings.{block_at};
ghost use Rattle.own.specs.States.{state_of};
ghost use Rattle.server.specs.Answers.{site_is, value_of, refused_by, started_of, Stepping, Starting, Asking};

use crate::counts;
use carriage::ready_block::Block;
use carriage::ready_blocks::Blocks;
use network::Network;
use own::kind::Kind;
use own::state::{Own, State};
use own::{state, step};
use plan::check;
use refusal::{CallGround, Refusal};

// The blocks of the plan, where card and plan are both accepted.
fn checked<'a>(card: &[u8], plan: &'a [u8]) -> Result<Blocks<'a>, Refusal>
    ensures site { site_is result ≡ site_of card.now plan.now }
    ensures whole { IfOk result (λ w. w.rest.now ≡ plan.now) }
{
    let network = Network::read(card)?;
    let totals = check::check_plan(card, plan)?;
    Ok(Blocks {
        n: network.n,
        f: network.f,
        rest: plan,
        left: totals.blocks,
    })
}

// Block j of the plan.
fn block_at<'a>(plan: &Blocks<'a>, j: usize) -> Block<'a>
    requires { j < plan.now.left }
    ensures servers { result.opening.n ≡ plan.now.n }
    ensures block { block_at result.opening result.bytes.now ≡ block_of plan.now.n plan.now.f plan.now.rest.now j }
{
    let mut blocks = *plan;
    blocks.nth(j).unwrap()
}

// How many values the server sends: at the end one, the decided bit.
fn values_due(plan: &Blocks, server: u8, state: State) -> usize
    requires { (server < 8) × ((state.kind ≡ 0x15 → ⊥) → state.block < plan.now.left) }
    ensures { result ≡ length (values_due plan.now.n plan.now.f plan.now.rest.now server (state_of state)) }
{
    if state.kind == 0x15 {
        return 1;
    }
    let block = block_at(plan, state.block as usize);
    counts::sent(&block, Kind::from(state.kind), server)
}

// What the server sends: t in 12 and 13; v in 11 and 14 and at the end.
fn value(state: State) -> u8
    requires { (state.v < 2) × (state.t < 3) }
    ensures { result ≡ value_of (state_of state) }
{
    match Kind::from(state.kind) {
        Kind::Among | Kind::Outward => state.t as u8,
        Kind::Inward | Kind::Reports => state.v as u8,
    }
}

// The value, so many times; later bytes are left as they are.
// Kept: no `fill`, of which LLVM makes a call of the C library's memset, and what a first call of that may
// take of the stack is more than three times what the whole ask needs. A byte that has the value is passed
// by, since a loop that stores each byte would become that call too.
fn fill(lent: &mut [u8], count: usize, value: u8)
    requires { count ≤ length lent.old }
    ensures { lent.new ≡ replicate count value ++ drop count lent.old }
{
    for i in 0..count {
        if lent[i] != value {
            lent[i] = value;
        }
    }
}

// The grounds of an ask, and the values where there is none.
fn ask_on(
    plan: &Blocks,
    server: u8,
    state: &mut State,
    lent: &mut [u8],
) -> Result<usize, CallGround>
    ensures { Asking (state_of state.old) (ask_on (site plan.now.n plan.now.f plan.now.left) plan.now.rest.now server (state_of state.old) lent.old) (refused_by result) (state_of state.new) lent.old lent.new }
{
    let before = *state;
    if state::stands(plan.n, plan.left, server, before) {
        let count = values_due(plan, server, before);
        if lent.len() < count {
            return Err(CallGround::Buffer);
        }
        if before.asked == 1 {
            return Err(CallGround::OutOfTurn);
        }
        fill(&mut *lent, count, value(before));
        *state = state::opened(before);
        return Ok(count);
    }
    Err(CallGround::FaultSet)
}

// The state after the commit of its kind.
fn moved(plan: &Blocks, server: u8, state: State, arrived: &[u8]) -> State
    requires { (state.block < plan.now.left) × (state.v < 2) × (state.t < 3) }
    ensures { state_of result ≡ next plan.now.left (state_of state) (committed plan.now.n state.kind (block_of plan.now.n plan.now.f plan.now.rest.now state.block) server arrived.now (record { v = state.v; t = state.t })) }
{
    let block = block_at(plan, state.block as usize);
    let due = counts::due(&block, Kind::from(state.kind), server);
    let before = Own {
        v: state.v as u8,
        t: state.t as u8,
    };
    let after = step::committed(block.opening, state.kind, server, arrived, due, before);
    state::next(plan.left, state, after)
}

// The grounds of a commit, and the steps of its kind where there is none.
fn commit_on(plan: &Blocks, server: u8, state: &mut State, arrived: &[u8]) -> Result<(), CallGround>
    ensures { Stepping (state_of state.old) (commit_on (site plan.now.n plan.now.f plan.now.left) plan.now.rest.now server (state_of state.old) arrived.now) (refused_by result) (state_of state.new) }
{
    let before = *state;
    if state::stands(plan.n, plan.left, server, before) {
        if before.asked == 0 {
            return Err(CallGround::OutOfTurn);
        }
        *state = moved(plan, server, before, arrived);
        return Ok(());
    }
    Err(CallGround::FaultSet)
}

// The grounds of a start, and the first state where there is none.
fn start_on(n: u8, server: u8, input: u8) -> Result<State, CallGround>
    ensures { Starting n server input (refused_by result) }
{
    if 1 < input {
        return Err(CallGround::Inputs);
    }
    if server < n {
        return Ok(state::first(input));
    }
    Err(CallGround::FaultSet)
}

// Where a server starts, with its own input.
pub fn start(card: &[u8], plan: &[u8], server: u8, input: u8) -> Result<State, Refusal>
    ensures { started_of result ≡ start_call card.now plan.now server input }
{
    let blocks = checked(card, plan)?;
    let state = start_on(blocks.n, server, input)?;
    Ok(state)
}

// What the server sends as source, into the lent buffer: how many values. The ask is open in the
// state then; refused, the state and the buffer are as they were.
pub fn ask(
    card: &[u8],
    plan: &[u8],
    server: u8,
    state: &mut State,
    lent: &mut [u8],
) -> Result<usize, Refusal>
    ensures { Asking (state_of state.old) (ask_call card.now plan.now server (state_of state.old) lent.old) result (state_of state.new) lent.old lent.new }
{
    let blocks = checked(card, plan)?;
    let count = ask_on(&blocks, server, state, lent)?;
    Ok(count)
}

// What arrived for the server as receiver is taken in, and the state moves on; refused, it is as it
// was.
pub fn commit(
    card: &[u8],
    plan: &[u8],
    server: u8,
    state: &mut State,
    arrived: &[u8],
) -> Result<(), Refusal>
    ensures { Stepping (state_of state.old) (commit_call card.now plan.now server (state_of state.old) arrived.now) result (state_of state.new) }
{
    let blocks = checked(card, plan)?;
    commit_on(&blocks, server, state, arrived)?;
    Ok(())
}
