// The split test: the first bad split of V into F, L, C, R, or none.
#![tactic(auto)]

pub mod sources;

ghost use Rattle.std.specs.Prelude.{◌≡◌, ℕ, ◌≤◌, ◌<◌, ◌^◌, leb};
ghost use Rattle.network.specs.Links.{Links};
ghost use Rattle.split.specs.Split.{first_bad, split_test};
ghost use Rattle.split.specs.Weak.{outside};
ghost use Rattle.split.specs.Sources.{Tables};
ghost use Rattle.split.specs.Answers.{found_of, split_answer_of};

use crate::sources::Sources;
use network::Network;
use refusal::Refusal;

// A split of V into F, L, C and R.
#[derive(Clone, Copy, Drop)]
pub struct Split {
    pub f: u8,
    pub l: u8,
    pub c: u8,
    pub r: u8,
}

// The set s has at most f incoming neighbours outside F: then it can be a side of a bad split,
// whatever the other side is.
// Kept: beside `Sources::is_weak`, for a caller with tables of its own: it asks nothing of them.
pub fn is_weak(
    sizes: &[u8; 256],
    lower: &[u8; 16],
    upper: &[u8; 16],
    f: u8,
    fault: u8,
    s: u8,
) -> bool
    ensures { (n : ℕ) (links : Links) → n ≤ 8 → s < 2 ^ n → Tables n links sizes.now lower.now upper.now → result ≡ leb (outside n links fault s) f }
{
    let into = sources::into(lower, upper, s);
    let neighbours = sets::minus(into, s);
    let outside = sets::minus(neighbours, fault) as usize;
    sizes[outside] <= f
}

// The first bad split in the order of F, then L, then R. L goes over the sets that keep clear of F,
// R over those that keep clear of F and L; the scan over R is entered only for a weak L.
fn first_bad(network: Network) -> Option<Split>
    ensures { found_of result ≡ first_bad network.n network.f network.links }
{
    let sources = Sources::of(network.links);
    let servers = sets::full(network.n);
    let f = network.f;
    let mut found = None;
    'scan: for fault in 0..=servers {
        if sets::size(fault) <= f {
            for left in sets::apart(servers, fault) {
                if sources.is_weak(f, fault, left) {
                    let busy = sets::union(fault, left);
                    for right in sets::apart(servers, busy) {
                        if sources.is_weak(f, fault, right) {
                            let sound = sets::minus(servers, fault);
                            let sides = sets::union(left, right);
                            let rest = sets::minus(sound, sides);
                            found = Some(Split {
                                f: fault,
                                l: left,
                                c: rest,
                                r: right,
                            });
                            break 'scan;
                        }
                    }
                }
            }
        }
    }
    found
}

// The first bad split of the card's network, none if it has none, or the card's refusal.
pub fn split_test(card: &[u8]) -> Result<Option<Split>, Refusal>
    ensures { split_answer_of result ≡ split_test card.now }
{
    let network = Network::read(card)?;
    Ok(first_bad(network))
}
