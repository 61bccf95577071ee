// The quick test for sites whose links all have a return, by the older rule: n is at least 3f + 1, and
// at least 2f + 1 servers must be taken away before the rest falls apart.
#![tactic(auto)]

ghost use Rattle.std.specs.Prelude.{◌≡◌, false, ◌≤◌};
ghost use Rattle.network.specs.Card.{network as card_network};
ghost use Rattle.split.specs.Sources.{SourceRows};
ghost use Rattle.two_way.specs.Separation.{one_way, connectivity};
ghost use Rattle.two_way.specs.Scan.{unlike, every_linked, cut_rows};
ghost use Rattle.two_way.specs.Quick.{older_rule, quick_of, quick_test};
ghost use Rattle.two_way.specs.Answers.{quick_answer_of};

use network::{Network, links};
use refusal::{CallGround, Refusal};
use split::sources;
use split::sources::Sources;

// What the older rule says of a site.
#[derive(Clone, Copy, Drop)]
pub struct Rule {
    pub holds: bool,
    pub n: u8,
    // The least number of servers to be taken away before the rest falls apart.
    pub least: u8,
}

// Some server has other links than it has sources.
fn unlike(rows: [u8; 8], sources: [u8; 8]) -> bool
    ensures { result ≡ unlike rows sources }
{
    // Kept: by number, since the definition goes by it; of `rows != sources`, tried, the proof did not close.
    for u in 0..8usize {
        if rows[u] != sources[u] {
            return true;
        }
    }
    false
}

// Every two servers are linked: with itself, each has all servers for its sources.
fn every_linked(n: u8, sources: [u8; 8]) -> bool
    requires { n ≤ 8 }
    ensures { result ≡ every_linked n sources }
{
    let servers = sets::full(n);
    for v in 0..n {
        let itself = sets::single(v);
        let all = sets::union(sources[v as usize], itself);
        if all != servers {
            return false;
        }
    }
    true
}

// How many servers cut the part off from the others: its neighbours; `most` if these leave no others.
fn cut_off(sources: &Sources, servers: u8, most: u8, part: u8) -> u8
    ensures { result ≡ cut_rows sources.now.rows servers most part }
{
    let into = sources.linked_into(part);
    let neighbours = sets::minus(into, part);
    let without = sets::minus(servers, neighbours);
    let others = sets::minus(without, part);
    // at hand before the test, so that no branch has to be foreseen for each part
    let cut = sets::size(neighbours);
    if others == 0 {
        return most;
    }
    cut
}

// The least number of servers to be taken away before the rest falls apart. Of the two parts into
// which it falls one does not have the last server, so the sets of the other servers are enough.
fn least_taken(network: Network, rows: [u8; 8]) -> u8
    requires { (one_way network.n network.links ≡ false) × SourceRows network.links rows }
    ensures { result ≡ connectivity network.n network.links }
{
    let most = network.n - 1;
    if every_linked(network.n, rows) {
        return most;
    }
    let sources = Sources::from_rows(rows);
    let servers = sets::full(network.n);
    let half = servers / 2 + 1;
    let mut least = most;
    for part in 1..half {
        let taken = cut_off(&sources, servers, most, part);
        if taken < least {
            // no number is less
            if taken == 0 {
                return 0;
            }
            least = taken;
        }
    }
    least
}

// n is at least 3f + 1, and the least number at least 2f + 1.
fn older_rule(n: u8, f: u8, least: u8) -> bool
    ensures { result ≡ older_rule n f least }
{
    let faults = f as u16;
    let servers = n as u16;
    let away = least as u16;
    let wanted = 3 * faults + 1;
    if servers < wanted {
        return false;
    }
    let needed = 2 * faults + 1;
    needed <= away
}

// The rule's answer for a network, or refusal 15.
fn by_rule(network: Network) -> Result<Rule, Refusal>
    ensures { quick_answer_of result ≡ quick_of (card_network network.n network.f network.links) }
{
    let rows = links::rows(network.links);
    let sources = sources::source_rows(network.links);
    if unlike(rows, sources) {
        return Err(Refusal::Call(CallGround::OneWay));
    }
    let least = least_taken(network, sources);
    let holds = older_rule(network.n, network.f, least);
    Ok(Rule {
        holds,
        n: network.n,
        least,
    })
}

// The quick test: the older rule's answer for the card's network, the card's refusal, or 15.
pub fn quick_test(card: &[u8]) -> Result<Rule, Refusal>
    ensures { quick_answer_of result ≡ quick_test card.now }
{
    by_rule(Network::read(card)?)
}
