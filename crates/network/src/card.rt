// The card reader: any bytes, any length, to the network or to the one refusal.
ghost use Rattle.std.specs.Prelude.{◌≡◌, ◌≤◌, ◌<◌, false, length};
ghost use Rattle.network.specs.Card.{head_fits, link_fits, read_card};
ghost use Rattle.network.specs.Links.{no_links};
ghost use Rattle.network.specs.Answers.{network_of, Answered};
ghost use Rattle.network.specs.Places.{whole_link, Opening, Closing, Fronted, ReadAs, At};

use crate::Network;
use refusal::{CardGround, Refusal};

// What stands at the front of a card: the number of servers n and the fault bound f.
#[derive(Clone, Copy, Drop)]
pub struct Head {
    pub n: u8,
    pub f: u8,
}

// n is 2 to 8 and f is 0 to 2.
fn head_fits(n: u8, f: u8) -> bool
    ensures { result ≡ head_fits n f }
{
    if n < 2 {
        return false;
    }
    if 8 < n {
        return false;
    }
    if 2 < f {
        return false;
    }
    true
}

// u and v are two different servers of n.
fn link_fits(n: u8, u: u8, v: u8) -> bool
    ensures { result ≡ link_fits n u v }
{
    if u < n {
        if v < n {
            return u != v;
        }
    }
    false
}

// The head at the front of the card, or what is at fault there.
fn read_head(card: &[u8]) -> Result<Head, CardGround>
    ensures { Opening card.now result }
{
    if card.len() == 0 {
        return Err(CardGround::Cut(0));
    }
    let command = card[0];
    if command == 3 {
        return Err(CardGround::Head(0));
    }
    if command == 1 {
        if card.len() < 3 {
            return Err(CardGround::Cut(0));
        }
        let n = card[1];
        let f = card[2];
        if head_fits(n, f) {
            return Ok(Head { n, f });
        }
        return Err(CardGround::Range(0));
    }
    if command == 2 {
        if card.len() < 3 {
            return Err(CardGround::Cut(0));
        }
        return Err(CardGround::Head(0));
    }
    Err(CardGround::Cut(0))
}

// A link command with its two operands stands at this place.
fn whole_link(card: &[u8], at: usize) -> bool
    requires { at ≤ length card.now }
    ensures { result ≡ whole_link card.now at }
{
    if card.len() - at < 3 {
        return false;
    }
    card[at] == 2
}

// The command after the last whole link is the end of the card; or what is at fault.
fn read_end(card: &[u8], at: usize) -> Result<(), CardGround>
    requires { (at ≤ length card.now) × (0 < at) × (whole_link card.now at ≡ false) }
    ensures { Closing card.now at result }
{
    if card.len() <= at {
        return Err(CardGround::Cut(at));
    }
    let command = card[at];
    if command == 3 {
        let after = at + 1;
        if after < card.len() {
            return Err(CardGround::Trailing(after));
        }
        return Ok(());
    }
    if command == 1 {
        if card.len() - at < 3 {
            return Err(CardGround::Cut(at));
        }
        return Err(CardGround::Head(at));
    }
    Err(CardGround::Cut(at))
}

// The links after the head, marked in `marks`, which has none yet, and the end. A link given again finds
// its mark set, and is one link.
fn read_links(card: &[u8], head: Head, marks: &mut [[bool; 8]; 8]) -> Result<(), CardGround>
    requires { (head.n ≤ 8) × (marks.old ≡ no_links) × (At card.now 3 head.n head.f no_links) }
    ensures { ReadAs card.now head.n head.f result marks.new }
{
    // Kept: by place and not by chunks, since a refusal names the place of the command (table of FORMATS.md).
    let mut at: usize = 3;
    while whole_link(card, at) {
        let u = card[at + 1];
        let v = card[at + 2];
        if link_fits(head.n, u, v) {
            let row = u as usize;
            let mark = v as usize;
            marks[row][mark] = true;
            at = at + 3;
        } else {
            return Err(CardGround::Range(at));
        }
    }
    read_end(card, at)
}

// The head of a card that is not too long.
fn read_front(card: &[u8]) -> Result<Head, CardGround>
    ensures { Fronted card.now result }
{
    if 1024 < card.len() {
        return Err(CardGround::TooLong);
    }
    read_head(card)
}

impl Network {
    // Reads the card: its network, or what is at fault. Inlined, so that the marks are not copied on their way
    // to the caller: a card refused halfway takes a quarter more time otherwise.
    #[inline(always)]
    pub fn read(card: &[u8]) -> Result<Network, Refusal>
        ensures { network_of result ≡ read_card card.now }
    {
        let head = read_front(card)?;
        let mut links = [[false; 8]; 8];
        read_links(card, head, &mut links)?;
        Ok(Network {
            n: head.n,
            f: head.f,
            links,
        })
    }
}

// Reads the card: n and f, with the links laid into `links`; or what is at fault, with `links` as
// it was. It reads into marks of its own and not through a network, whose copies of the marks cost
// more than a small card.
pub fn read_card(card: &[u8], links: &mut [[bool; 8]; 8]) -> Result<Head, Refusal>
    ensures { Answered card.now links.old result links.new }
{
    let head = read_front(card)?;
    let mut marks = [[false; 8]; 8];
    read_links(card, head, &mut marks)?;
    *links = marks;
    Ok(head)
}
