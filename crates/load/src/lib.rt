// The load on each relay: how many routes of an accepted plan each server relays, neither as source
// nor as receiver.
#![tactic(auto)]

ghost use Rattle.std.specs.Prelude.{◌≡◌, cond, ℕ, ◌≤◌, eqb, length, take, drop};
ghost use Rattle.load.specs.Places.{has_route};
ghost use Rattle.load.specs.Tally.{between, Room, Adds, Tallies};
ghost use Rattle.load.specs.Answers.{Answered};

use plan::check;
use refusal::Refusal;
use route::command;

// A command with a route: 11, 12 or 13.
// Kept: the command is the byte of the file format (docs/FORMATS.md), unknown ones too.
fn has_route(command: u8) -> bool
    ensures { result ≡ has_route command }
{
    17 <= command && command < 20
}

// One more for the server; a byte past the eighth server is none. A count has room for one more.
fn add_one(counts: &mut [usize; 8], server: u8)
    requires { Room 18446744073709551614 counts.old }
    ensures { Adds (λ (i : ℕ). cond (eqb server i) 1 0) counts.old counts.new }
{
    if server < 8 {
        let i = server as usize;
        counts[i] = counts[i] + 1;
    }
}

// One more for each relay of a route: for each byte after the source's that has a server next. The
// receiver has none next, for the fill follows it or it is the eighth byte. No count passes the
// route's place in the plan, and no list has 2^63 bytes, so there is room for six more.
fn add_relays(counts: &mut [usize; 8], operand: &[u8])
    requires { (8 ≤ length operand.now) × Room 9223372036854775808 counts.old }
    ensures { Adds (λ (i : ℕ). between i (drop 1 (take 8 operand.now))) counts.old counts.new }
{
    for k in 1..7usize {
        let after = k + 1;
        if operand[after] == 255 {
            return;
        }
        add_one(&mut *counts, operand[k]);
    }
}

// The counts over all routes of a plan, command by command. A route's nine bytes are written as a
// number, so that the next command need not wait for the width of this one to be looked up.
fn count_relays(plan: &[u8]) -> [usize; 8]
    ensures { Tallies plan.now result }
{
    let mut counts = [0usize; 8];
    // Kept: by place and not by an iterator over commands, which would wait for each command's width: tried
    // when it was written, for the speed of the load (README, Speed).
    let mut at: usize = 0;
    while !command::is_cut(plan, at) {
        let command = plan[at];
        if has_route(command) {
            let first = at + 1;
            add_relays(&mut counts, &plan[first..]);
            at = at + 9;
        } else {
            at = at + command::width(command);
        }
    }
    counts
}

// The load: the counts of servers 0 to 7 into the lent array; or the one refusal, the card's first,
// with the array as it was.
pub fn load(card: &[u8], plan: &[u8], counts: &mut [usize; 8]) -> Result<(), Refusal>
    ensures { Answered card.now plan.now counts.old result counts.new }
{
    check::check_plan(card, plan)?;
    let found = count_relays(plan);
    *counts = found;
    Ok(())
}
