// A block's six steps.
ghost use Rattle.std.specs.Prelude.{◌≡◌, ◌≤◌};
ghost use Rattle.steps.specs.Steps.{run_block};
ghost use Rattle.carriage.specs.Openings.{block_at};
ghost use Rattle.run.specs.Answers.{values_of};

use crate::hearing::Faults;
use crate::values::Values;
use carriage::ready_block::Block;

// The values after the six steps of this block, whose first carriage has this number.
pub(crate) fn run_block(before: Values, block: &Block, faults: &Faults, number: usize) -> Values
    requires { number ≤ 1048576 }
    ensures { values_of result ≡ run_block block.now.opening.n faults.now.servers faults.now.table.now number (block_at block.now.opening block.now.bytes.now) (values_of before) }
{
    let opening = block.opening;
    let sound = sets::minus(sets::full(opening.n), opening.fault);
    let kept = sets::meet(opening.side, opening.quorum);
    let s1 = before.step1(opening.side);
    let s2 = s1.step2(block, faults, number);
    let s3 = s2.step3(block, faults, number);
    let s4 = s3.step4(block, faults, number);
    let s5 = s4.step5(sound, kept);
    s5.step6(block, faults, number)
}
