// A call to run: card and plan are checked before the first block, then the call is.
ghost use Rattle.std.specs.Prelude.{◌≡◌, true, ◌++◌, ◌≤◌, length, drop, replicate, OnOk, nat_lt};
ghost use Rattle.std.specs.List.{list_all};
ghost use Rattle.plan.specs.declared.check.Totals.{Totals};
ghost use Rattle.plan.specs.Check;
ghost use Rattle.rules.specs.Blocks.{decode_blocks};
ghost use Rattle.steps.specs.Steps.{held, values, run_blocks};
ghost use Rattle.steps.specs.Run.{are_bits, check_call, decided};
ghost use Rattle.run.specs.Speaking.{bits_of, works_of};
ghost use Rattle.run.specs.Answers.{values_of, call_of, Answered};

use crate::hearing::Faults;
use crate::values::Values;
use crate::{block, hearing};
use carriage::ready_blocks::Blocks;
use network::Network;
use plan::check;
use plan::check::Totals;
use refusal::{CallGround, Refusal};

// The blocks of an accepted plan, in plan order.
fn run_blocks(plan: &Blocks, start: Values, faults: &Faults) -> Values
    ensures { values_of result ≡ run_blocks plan.now.n faults.now.servers faults.now.table.now 0 (decode_blocks plan.now.n plan.now.f plan.now.rest.now plan.now.left) (values_of start) }
{
    let mut values = start;
    let mut number: usize = 0;
    for part in *plan {
        let next = block::run_block(values, &part, faults, number);
        values = next;
        number = number + part.opening.carriages;
    }
    values
}

// Every byte is 0 or 1.
fn are_bits(inputs: &[u8]) -> bool
    ensures { result ≡ list_all (λ x. nat_lt x 2) inputs.now }
{
    inputs.iter().all(|x| *x < 2)
}

// At first v is the input and t is unsure.
fn first_values(inputs: &[u8]) -> Values
    requires { (length inputs.now ≤ 8) × (are_bits inputs.now ≡ true) }
    ensures { (bits_of result.v ≡ values (held inputs.now)) × (works_of result.sure result.t ≡ replicate 8 2) }
{
    let mut v: u8 = 0;
    for (i, x) in inputs.iter().enumerate() {
        if *x == 1 {
            v = sets::union(v, sets::single(i as u8));
        }
    }
    Values { v, sure: 0, t: 0 }
}

// v of each sound server, 2 for a faulty one; later bytes are left as they are.
fn write(n: u8, faulty: u8, v: u8, lent: &mut [u8])
    requires { (n ≤ 8) × (n ≤ length lent.old) }
    ensures { lent.new ≡ decided n faulty (bits_of v) ++ drop n lent.old }
{
    // Kept: by number, since each byte is made from the number of its server.
    for i in 0..n {
        let j = i as usize;
        if sets::member(faulty, i) {
            lent[j] = 2;
        } else {
            lent[j] = hearing::bit(v, i);
        }
    }
}

// The grounds of a call, in their order.
fn check_call(n: u8, f: u8, inputs: &[u8], faulty: u8, lent: &[u8]) -> Result<(), CallGround>
    requires { n ≤ 8 }
    ensures ground { (answer : Check.Totals) → call_of result answer ≡ check_call n f inputs.now faulty lent.now answer }
    ensures passed { OnOk result ((length inputs.now ≡ n) × (are_bits inputs.now ≡ true) × (n ≤ length lent.now)) }
{
    let count = n as usize;
    if inputs.len() != count {
        return Err(CallGround::Inputs);
    }
    if are_bits(inputs) {
        if sets::within(faulty, sets::full(n)) {
            if f < sets::size(faulty) {
                return Err(CallGround::FaultSet);
            }
            if lent.len() < count {
                return Err(CallGround::Buffer);
            }
            return Ok(());
        }
        return Err(CallGround::FaultSet);
    }
    Err(CallGround::Inputs)
}

// The run: the decided bits into the lent buffer, and how many blocks and carriages there were; or
// the one refusal, the card's first, then the plan's, then the call's, with the buffer as it was.
// Kept: six parameters, which are those of the C function `agreement_run`.
pub fn run(
    card: &[u8],
    plan: &[u8],
    inputs: &[u8],
    faulty: u8,
    table: &[u8],
    lent: &mut [u8],
) -> Result<Totals, Refusal>
    ensures { Answered card.now plan.now inputs.now faulty table.now lent.old result lent.new }
{
    let network = Network::read(card)?;
    let totals = check::check_plan(card, plan)?;
    check_call(network.n, network.f, inputs, faulty, lent)?;
    let blocks = Blocks {
        n: network.n,
        f: network.f,
        rest: plan,
        left: totals.blocks,
    };
    let faults = Faults {
        servers: faulty,
        table,
    };
    let last = run_blocks(&blocks, first_values(inputs), &faults);
    write(network.n, faulty, last.v, lent);
    Ok(totals)
}
