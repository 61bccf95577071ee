// The network of a card: the card reader and the links.
#![tactic(auto)]

pub mod card;
pub mod links;

ghost use Rattle.network.specs.Proper.{Proper};

// n, f and the links, eight rows of eight marks: row u has a mark at v where there is a link from u
// to v. Those of an accepted card are proper, and no others are put together.
#[derive(Clone, Copy, Drop)]
pub struct Network {
    pub n: u8,
    pub f: u8,
    pub links: [[bool; 8]; 8],
    ghost proper: { Proper n f links },
}
