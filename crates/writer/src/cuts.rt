// The blocks of one F.
ghost use Rattle.std.specs.Prelude.{◌≡◌, ◌+◌, ◌≤◌, ◌<◌, length, IfSome, option_map};
ghost use Rattle.facts.specs.Laid.{laid};
ghost use Rattle.writer.specs.Bytes.{block_for, body_for, cuts_for, body_at, Again};

use crate::again;
use crate::fault::Fault;
use choice::Chosen;
use plan::due;

// Where the body of the block of this number stands: the blocks of one F have the same length and stand one
// behind the other.
fn body_place(start: usize, each: usize, number: Option<u8>) -> Option<usize>
    requires { IfSome number (λ k. body_at start each k < 18446744073709551616) }
    ensures { result ≡ option_map (body_at start each) number }
{
    let k = number? as usize;
    Some(start + k * each + 4)
}

// Kept: the whole buffer goes with the place in it, as a body is copied from before the place.
impl<'a> Fault<'a> {
    // A block written anew; how many bytes it has.
    fn put_new(&self, lent: &mut [u8], at: usize, chosen: Chosen) -> usize
        requires { at ≤ length lent.old }
        ensures bytes { lent.new ≡ laid at (block_for self.now.weak chosen) lent.old }
        ensures long { result ≡ length (block_for self.now.weak chosen) }
    {
        blocks::put_block(&mut lent[at..], &self.site, chosen)
    }

    // A block: written anew, or, where an earlier one of this F has its S, its body copied from there; how
    // many bytes it has.
    fn put_one(
        &self,
        lent: &mut [u8],
        at: usize,
        from: Option<usize>,
        each: usize,
        chosen: Chosen,
    ) -> usize
        requires again { Again (body_for self.now.weak chosen.quorum) from each at lent.old }
        requires room { at + length (block_for self.now.weak chosen) ≤ length lent.old }
        ensures bytes { lent.new ≡ laid at (block_for self.now.weak chosen) lent.old }
        ensures long { result ≡ length (block_for self.now.weak chosen) }
    {
        match from {
            None => self.put_new(lent, at, chosen),
            Some(body) => {
                again::put_opening(lent, at, self.weak.fault, chosen);
                again::put_again(lent, body, at + 4, each - 4);
                each
            }
        }
    }

    // The blocks of this F, by the part of V−F that holds its lowest server, ascending; the place after
    // them.
    pub(crate) fn put_cuts(&self, lent: &mut [u8], start: usize) -> usize
        requires { start + length (cuts_for self.now.weak) ≤ length lent.old }
        ensures bytes { lent.new ≡ laid start (cuts_for self.now.weak) lent.old }
        ensures after { result ≡ start + length (cuts_for self.now.weak) }
    {
        // By S, the number of the last block with it.
        // Kept: the number and not the place of its body, for the stack: 256 places take eight times as much.
        let mut numbers: [Option<u8>; 256] = [None; 256];
        let mut each: usize = 0;
        let mut at = start;
        for (k, part) in due::parts(self.weak.sound).enumerate() {
            let chosen = self.weak.choose(part);
            let key = chosen.quorum as usize;
            let from = body_place(start, each, numbers[key]);
            let bytes = self.put_one(lent, at, from, each, chosen);
            numbers[key] = Some(k as u8);
            each = bytes;
            at += bytes;
        }
        at
    }
}
