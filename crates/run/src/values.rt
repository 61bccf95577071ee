// The values of the eight servers that there can be, and the six steps of a block on them. Step 3
// and the arrivals of every step go by the values before the step.
ghost use Rattle.std.specs.Prelude.{◌≡◌, cond, map, ℕ, ◌+◌, ◌≤◌};
ghost use Rattle.sets.specs.Sets.{has, minus, full};
ghost use Rattle.rules.specs.Blocks.{carriage_of, report_carriages};
ghost use Rattle.steps.specs.Steps.{values, step1, gather, compare, step5, step6};
ghost use Rattle.run.specs.Speaking.{work_of, bits_of, works_of, replaced, alike, settled};
ghost use Rattle.carriage.specs.Openings.{block_at};

use crate::hearing;
use crate::hearing::{Against, Faults};
use carriage::ready_block::Block;

// A value is held as a set of servers, so that a step changes all servers at the same time.
#[derive(Drop)]
pub struct Values {
    // The servers whose v is 1; the others have 0, at first all have their input.
    pub v: u8,
    // The servers whose t is 0 or 1; the others have 2, for unsure.
    pub sure: u8,
    // The servers whose t is 1, of those that are sure.
    pub t: u8,
}

// The members of `new` in a set, and of `old` outside it.
fn replaced(old: u8, inside: u8, new: u8) -> u8
    ensures { result ≡ replaced old inside new }
{
    let kept = sets::minus(old, inside);
    let taken = sets::meet(new, inside);
    sets::union(kept, taken)
}

// The servers whose arrivals are alike and 0 or 1: they speak against one of the two, not both.
fn alike(against: Against) -> u8
    ensures { result ≡ alike against.zero against.one }
{
    let some = sets::union(against.zero, against.one);
    let both = sets::meet(against.zero, against.one);
    sets::minus(some, both)
}

impl Values {
    // 1. Each server of A sets t to v.
    pub(crate) fn step1(mut self, side: u8) -> Values
        ensures { (result.v ≡ self.v) × (works_of result.sure result.t ≡ step1 side (bits_of self.v) (works_of self.sure self.t)) }
    {
        let sure = sets::union(self.sure, side);
        let t = replaced(self.t, side, self.v);
        self.sure = sure;
        self.t = t;
        self
    }

    // Each receiver of the set takes the common value of its arrivals, 2 where they are not alike.
    fn gathered(mut self, receivers: u8, against: Against) -> Values
        ensures { (result.v ≡ self.v) × (works_of result.sure result.t ≡ values (λ (i : ℕ). cond (has receivers i) (settled (has against.zero i) (has against.one i)) (work_of self.sure self.t i))) }
    {
        let sure = replaced(self.sure, receivers, alike(against));
        let t = replaced(self.t, receivers, against.zero);
        self.sure = sure;
        self.t = t;
        self
    }

    // 2. Each receiver of S−A: t is the common value if its arrivals are alike, else 2.
    pub(crate) fn step2(mut self, block: &Block, faults: &Faults, number: usize) -> Values
        requires { number ≤ 1048576 }
        ensures { (result.v ≡ self.v) × (works_of result.sure result.t ≡ gather faults.now.servers faults.now.table.now number (map carriage_of (block_at block.now.opening block.now.bytes.now).inward) (minus block.now.opening.quorum block.now.opening.side) (works_of self.sure self.t)) }
    {
        let opening = block.opening;
        let inward = hearing::over_routes(faults, number, self.sure, self.t, block.inward());
        let against = hearing::unpacked(inward);
        let after = self.gathered(sets::minus(opening.quorum, opening.side), against);
        self = after;
        self
    }

    // 3. All of S at the same time: t is kept if every arrival equals it, else 2.
    pub(crate) fn step3(mut self, block: &Block, faults: &Faults, number: usize) -> Values
        requires { number ≤ 1048576 }
        ensures { (result.v ≡ self.v) × (works_of result.sure result.t ≡ compare faults.now.servers faults.now.table.now (number + block.now.opening.inward) (map carriage_of (block_at block.now.opening block.now.bytes.now).among) block.now.opening.quorum (works_of self.sure self.t)) }
    {
        let opening = block.opening;
        let first = number + opening.inward;
        let among = hearing::over_routes(faults, first, self.sure, self.t, block.among());
        let against = hearing::unpacked(among);
        // Against 1 for a server whose t is 1, else against 0.
        let differs = replaced(against.zero, self.t, against.one);
        let sure = sets::minus(self.sure, sets::meet(opening.quorum, differs));
        self.sure = sure;
        self
    }

    // 4. Each receiver of V−F−S as in step 2.
    pub(crate) fn step4(mut self, block: &Block, faults: &Faults, number: usize) -> Values
        requires { number ≤ 1048576 }
        ensures { (result.v ≡ self.v) × (works_of result.sure result.t ≡ gather faults.now.servers faults.now.table.now (number + block.now.opening.inward + block.now.opening.among) (map carriage_of (block_at block.now.opening block.now.bytes.now).outward) (minus (minus (full block.now.opening.n) block.now.opening.fault) block.now.opening.quorum) (works_of self.sure self.t)) }
    {
        let opening = block.opening;
        let first = number + opening.inward + opening.among;
        let outward = hearing::over_routes(faults, first, self.sure, self.t, block.outward());
        let against = hearing::unpacked(outward);
        let sound = sets::minus(sets::full(opening.n), opening.fault);
        let after = self.gathered(sets::minus(sound, opening.quorum), against);
        self = after;
        self
    }

    // 5. Each server of V−F outside A∩S: if t is 0 or 1, v becomes t.
    pub(crate) fn step5(mut self, sound: u8, kept: u8) -> Values
        ensures { (bits_of result.v ≡ step5 sound kept (works_of self.sure self.t) (bits_of self.v)) × (result.sure ≡ self.sure) × (result.t ≡ self.t) }
    {
        let changing = sets::meet(sets::minus(sound, kept), self.sure);
        let v = replaced(self.v, changing, self.t);
        self.v = v;
        self
    }

    // 6. Each k of F: if its arrivals, the values v after step 5, are alike and 0 or 1, v becomes
    // that.
    pub(crate) fn step6(mut self, block: &Block, faults: &Faults, number: usize) -> Values
        requires { number ≤ 1048576 }
        ensures { (bits_of result.v ≡ step6 faults.now.servers faults.now.table.now (number + block.now.opening.inward + block.now.opening.among + block.now.opening.outward) (report_carriages (block_at block.now.opening block.now.bytes.now).reports) block.now.opening.fault (bits_of self.v)) × (result.sure ≡ self.sure) × (result.t ≡ self.t) }
    {
        let opening = block.opening;
        let first = number + opening.inward + opening.among + opening.outward;
        let against = hearing::over_reports(faults, first, self.v, block.reports());
        let told = sets::meet(opening.fault, alike(against));
        let v = replaced(self.v, told, against.zero);
        self.v = v;
        self
    }
}
