// The whole plan, written into lent memory.
ghost use Rattle.std.specs.Prelude.{◌≡◌, ◌+◌, ◌^◌, ◌≤◌, ◌<◌, length};
ghost use Rattle.facts.specs.Laid.{laid};
ghost use Rattle.sets.specs.Sets.{size};
ghost use Rattle.network.specs.Links.{linked_in};
ghost use Rattle.network.specs.Rows.{rows_of};
ghost use Rattle.split.specs.Sources.{SourceRows};
ghost use Rattle.split.specs.Split.{good, first_bad};
ghost use Rattle.rules.specs.Blocks.{encode_blocks};
ghost use Rattle.planner.specs.Plan.{plan_of, plan_bytes};
ghost use Rattle.planner.specs.Write.{fitting, after_write};
ghost use Rattle.writer.specs.Bytes.{cuts_bytes};
ghost use Rattle.writer.specs.Answers.{written_of, filled_of, Wrote};
ghost use Rattle.writer.specs.declared.write.Unwritten.TheVariants.{Refused};

use crate::fault::Fault;
use blocks::Site;
use choice::weak::Weak;
use network::{Network, links};
use plan::due;
use refusal::{CallGround, Refusal};
use split::Split;
use split::sources::Sources;

// Why no plan is written.
#[derive(Clone, Copy, Drop)]
pub enum Unwritten {
    // The network has a bad split, so no plan is accepted for it; this is the first.
    Split(Split),
    // The card is refused, or the lent buffer is shorter than the plan.
    Refused(Refusal),
}

impl From<Refusal> for Unwritten {
    ghost from_gives = { λ g r. r ≡ Refused g };

    fn from(g: Refusal) -> Unwritten {
        Unwritten::Refused(g)
    }
}

// The blocks of one F; the place after them. First the table of the sets that hold a weak set: they come
// in the order of their numbers, so the entries of the smaller sets are there when a set's turn comes.
// Kept: six parameters, since `rows` and `sources` are made once for all fault sets and `lent` is changed.
fn put_fault(
    lent: &mut [u8],
    start: usize,
    network: &Network,
    rows: [u8; 8],
    sources: &Sources,
    fault: u8,
) -> usize
    requires fine { first_bad network.now.n network.now.f network.now.links ≡ good }
    requires ahead { rows ≡ rows_of (linked_in network.now.links) }
    requires back { SourceRows network.now.links sources.now.rows }
    requires few { (fault < 2 ^ network.now.n) × (size fault ≤ network.now.f) }
    requires room { start + length (cuts_bytes network.now.n network.now.f network.now.links fault) ≤ length lent.old }
    ensures bytes { lent.new ≡ laid start (cuts_bytes network.now.n network.now.f network.now.links fault) lent.old }
    ensures after { result ≡ start + length (cuts_bytes network.now.n network.now.f network.now.links fault) }
{
    let servers = sets::full(network.n);
    let mut table = [false; 256];
    for set in sets::apart(servers, fault) {
        let held = choice::holds_weak(sources, network.f, fault, &table, set);
        table[set as usize] = held;
    }
    let sound = sets::minus(servers, fault);
    let of = Fault {
        weak: Weak {
            network,
            fault,
            sound,
            table: &table,
        },
        site: Site {
            rows,
            sources: sources.rows,
            count: network.f + 1,
            sound,
            fault,
        },
    };
    of.put_cuts(lent, start)
}

// The blocks of each F of at most f servers, ascending; the place after them.
fn put_blocks(lent: &mut [u8], network: &Network) -> usize
    requires fine { first_bad network.now.n network.now.f network.now.links ≡ good }
    requires room { length (encode_blocks (plan_of network.now.n network.now.f network.now.links)) ≤ length lent.old }
    ensures bytes { lent.new ≡ laid 0 (encode_blocks (plan_of network.now.n network.now.f network.now.links)) lent.old }
    ensures after { result ≡ length (encode_blocks (plan_of network.now.n network.now.f network.now.links)) }
{
    let rows = links::rows(network.links);
    let sources = Sources::of(network.links);
    let mut at: usize = 0;
    for fault in due::faults(network.n, network.f) {
        at = put_fault(lent, at, network, rows, &sources, fault);
    }
    at
}

// The plan of a network without a bad split, if the lent buffer has room for it; how many bytes it has.
fn write_good(network: &Network, lent: &mut [u8]) -> Result<usize, Refusal>
    requires { first_bad network.now.n network.now.f network.now.links ≡ good }
    ensures answer { filled_of result ≡ fitting (plan_bytes network.now.n network.now.f network.now.links) lent.old }
    ensures bytes { lent.new ≡ after_write (filled_of result) (plan_bytes network.now.n network.now.f network.now.links) lent.old }
{
    let bytes = lengths::plan_length(network.n, network.f);
    if lent.len() < bytes {
        return Err(Refusal::Call(CallGround::PlanBuffer));
    }
    let end = put_blocks(lent, network);
    lent[end] = 21;
    Ok(bytes)
}

// Writes a plan for the card: its number of bytes, with the later bytes as they were; or the card's
// refusal, the first bad split, or that the buffer is too short, with every lent byte as it was.
pub fn write_plan(card: &[u8], lent: &mut [u8]) -> Result<usize, Unwritten>
    ensures { Wrote card.now lent.old result lent.new }
{
    if let Some(split) = split::split_test(card)? {
        return Err(Unwritten::Split(split));
    }
    let network = Network::read(card)?;
    let bytes = write_good(&network, lent)?;
    Ok(bytes)
}
