// A block whose F and S an earlier one has: its routes and reports stand there already.
ghost use Rattle.std.specs.Prelude.{◌≡◌, ◌∷◌, [], ◌+◌, ◌≤◌, length, take, drop};
ghost use Rattle.facts.specs.Laid.{laid};

use choice::Chosen;

// The opening of a block.
pub(crate) fn put_opening(lent: &mut [u8], at: usize, fault: u8, chosen: Chosen)
    requires { at + 4 ≤ length lent.old }
    ensures { lent.new ≡ laid at (16 ∷ fault ∷ chosen.side ∷ chosen.quorum ∷ []) lent.old }
{
    lent[at..at + 4].copy_from_slice(&[16, fault, chosen.side, chosen.quorum]);
}

// So many bytes from one place to a later one.
// Kept: `copy_within` would call memmove, and the archive may call nothing but memset.
pub(crate) fn put_again(lent: &mut [u8], from: usize, at: usize, bytes: usize)
    requires { (from + bytes ≤ at) × (at + bytes ≤ length lent.old) }
    ensures { lent.new ≡ laid at (take bytes (drop from lent.old)) lent.old }
{
    for i in 0..bytes {
        lent[at + i] = lent[from + i];
    }
}
