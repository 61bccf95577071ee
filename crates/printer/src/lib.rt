// The clean card of a network, written into lent memory: the head, the links ascending by u, then
// by v, and the end.
#![tactic(auto)]

ghost use Rattle.std.specs.Prelude.{◌≡◌, ◌+◌, ◌≤◌, length};
ghost use Rattle.facts.specs.Laid.{laid};
ghost use Rattle.printer.specs.Print.{link_bytes, ascending, print_card, fitting, after_print};
ghost use Rattle.printer.specs.Answers.{printed_of, Printing};

use network::Network;
use refusal::{CallGround, Refusal};

// How many bytes the card of these links has.
fn card_length(links: [[bool; 8]; 8]) -> usize
    ensures { result ≡ 4 + length (link_bytes (ascending links)) }
{
    // Kept: one loop over the pairs and not two over rows and marks, since the card has its links in the order
    // of the pairs (`links_among`).
    let mut bytes: usize = 4;
    for pair in 0..64usize {
        let u = pair / 8;
        let v = pair % 8;
        if links[u][v] {
            bytes = bytes + 3;
        }
    }
    bytes
}

// The links, from the fourth byte on.
fn write_links(links: [[bool; 8]; 8], lent: &mut [u8])
    requires { 3 + length (link_bytes (ascending links)) ≤ length lent.old }
    ensures { lent.new ≡ laid 3 (link_bytes (ascending links)) lent.old }
{
    let mut at: usize = 3;
    for pair in 0..64usize {
        let u = pair / 8;
        let v = pair % 8;
        if links[u][v] {
            lent[at] = 2;
            lent[at + 1] = u as u8;
            lent[at + 2] = v as u8;
            at = at + 3;
        }
    }
}

// The card of this network, if the lent buffer has room for it; how many bytes were written.
fn print_network(network: Network, lent: &mut [u8]) -> Result<usize, Refusal>
    ensures { (printed_of result ≡ fitting (print_card network.n network.f network.links) lent.old) × (lent.new ≡ after_print (printed_of result) (print_card network.n network.f network.links) lent.old) }
{
    let room = lent.len();
    let bytes = card_length(network.links);
    if room < bytes {
        return Err(Refusal::Call(CallGround::Buffer));
    }
    lent[0] = 1;
    lent[1] = network.n;
    lent[2] = network.f;
    write_links(network.links, &mut *lent);
    let last = bytes - 1;
    lent[last] = 3;
    Ok(bytes)
}

// Reads the card and writes the clean one: its number of bytes, with the later bytes as they were;
// or the card's refusal, or that the buffer is too short, with every lent byte as it was.
pub fn print_card(card: &[u8], lent: &mut [u8]) -> Result<usize, Refusal>
    ensures { Printing card.now lent.old result lent.new }
{
    let network = Network::read(card)?;
    print_network(network, &mut *lent)
}
