// What a carriage brings, and what the arrivals of each server speak against.
ghost use Rattle.std.specs.Prelude.{◌≡◌, cond, [], ◌∷◌, map, ℕ, ◌+◌, ◌*◌, ◌/◌, ◌%◌, ◌≤◌, ◌<◌, eqb, length, get_or};
ghost use Rattle.sets.specs.Sets.{has};
ghost use Rattle.sets.specs.Members.{members};
ghost use Rattle.rules.specs.Blocks.{carriage_of, report_carriages};
ghost use Rattle.steps.specs.Hearing.{hit, message, heard};
ghost use Rattle.steps.specs.Steps.{held};
ghost use Rattle.run.specs.Speaking.{bit_of, work_of, bits_of, works_of, Adds, Speaks, reported};
ghost use Rattle.carriage.specs.Passing.{routes_of, reports_of};

use carriage::ready_reports::Reports;
use carriage::ready_routes::Routes;
use carriage::{arrival, walk};

// What the arrivals of a step speak against, server by server.
#[derive(Clone, Copy)]
pub struct Against {
    // The servers with an arrival other than 0.
    pub zero: u8,
    // The servers with an arrival other than 1.
    pub one: u8,
}

// The faulty servers, and the table of the messages that they send.
#[derive(Clone, Copy, Drop)]
pub(crate) struct Faults<'a> {
    pub(crate) servers: u8,
    pub(crate) table: &'a [u8],
}

// Kept: both sets in one number, for speed.
// Both sets from one number, the second times 256. What a function hands back as two bytes the
// caller reads as one word, and has to wait for it; a number stays in a register.
pub(crate) fn unpacked(sets: u16) -> Against
    ensures { (result.zero ≡ sets % 256) × (result.one ≡ sets / 256) }
{
    Against {
        zero: (sets % 256) as u8,
        one: (sets / 256) as u8,
    }
}

// The value of server i, where `ones` are the servers with 1.
pub(crate) fn bit(ones: u8, i: u8) -> u8
    ensures { result ≡ bit_of ones i }
{
    if sets::member(ones, i) {
        return 1;
    }
    0
}

// The t of server i: 2 for one that is not sure.
fn work(sure: u8, ones: u8, i: u8) -> u8
    ensures { result ≡ work_of sure ones i }
{
    if sets::member(sure, i) {
        return bit(ones, i);
    }
    2
}

// What a carriage brings from its source: the table's byte if it was hit, else the source's t.
fn brought(hit: bool, table: &[u8], number: usize, sure: u8, ones: u8, source: u8) -> u8
    requires { source < 8 }
    ensures { result ≡ cond hit (message table.now number) (held (works_of sure ones) source) }
{
    if hit {
        return arrival::message(table, number);
    }
    work(sure, ones, source)
}

// Kept: no branch in the hottest loop, for speed.
// x where the test holds, else y: both are at hand, so that no branch has to be foreseen.
fn chosen(test: bool, x: u8, y: u8) -> u8
    ensures { result ≡ cond test x y }
{
    if test {
        return x;
    }
    y
}

// One arrival more: 2 speaks against both 0 and 1.
fn spoken(zero: u8, one: u8, receiver: u8, arrival: u8) -> Against
    requires { receiver < 8 }
    ensures { Adds (record { zero = zero; one = one }) (λ (i : ℕ). cond (eqb receiver i) (arrival ∷ []) []) result }
{
    let here = sets::single(receiver);
    let is_zero = arrival == 0;
    let is_one = arrival == 1;
    Against {
        zero: sets::union(zero, chosen(is_zero, 0, here)),
        one: sets::union(one, chosen(is_one, 0, here)),
    }
}

// What the arrivals over these routes speak against, where the sources send their t; both sets as
// one number.
pub(crate) fn over_routes(faults: &Faults, first: usize, sure: u8, ones: u8, routes: Routes) -> u16
    requires { first ≤ 4294967296 }
    ensures { Speaks (heard faults.now.servers faults.now.table.now first (held (works_of sure ones)) (map carriage_of (routes_of routes.entry))) (record { zero = result % 256; one = result / 256 }) }
{
    // Kept: two bytes and no `Against`, so that each stays in a register of the hottest loop.
    let mut zero: u8 = 0;
    let mut one: u8 = 0;
    for (k, route) in routes.enumerate() {
        let operand = route.operand;
        let way = walk::walked(faults.servers, operand);
        let arrival = brought(way.hit, faults.table, first + k, sure, ones, operand[0]);
        let next = spoken(zero, one, operand[way.end], arrival);
        zero = next.zero;
        one = next.one;
    }
    (one as u16) * 256 + (zero as u16)
}

// What the report of server m brings, where `ones` are the servers whose v is 1.
fn reported(faults: &Faults, number: usize, ones: u8, m: u8) -> u8
    requires { m < 8 }
    ensures { result ≡ cond (has faults.now.servers m) (message faults.now.table.now number) (get_or (bits_of ones) m 0) }
{
    if sets::member(faults.servers, m) {
        return arrival::message(faults.table, number);
    }
    bit(ones, m)
}

// What the reports of these servers to one receiver speak against, beside what came before.
fn over_report(
    faults: &Faults,
    first: usize,
    ones: u8,
    before: Against,
    receiver: u8,
    reporters: u8,
) -> Against
    requires { (first + 8 < 18446744073709551616) × (receiver < 8) }
    ensures { Adds before (λ (i : ℕ). cond (eqb receiver i) (reported faults.now.servers faults.now.table.now first (held (bits_of ones)) (members reporters)) []) result }
{
    let mut against = before;
    for (k, m) in sets::ascending(reporters).enumerate() {
        let arrival = reported(faults, first + k, ones, m);
        let next = spoken(against.zero, against.one, receiver, arrival);
        against = next;
    }
    against
}

// What these reports speak against.
pub(crate) fn over_reports(faults: &Faults, first: usize, ones: u8, reports: Reports) -> Against
    requires { first ≤ 4294967296 }
    ensures { Speaks (heard faults.now.servers faults.now.table.now first (held (bits_of ones)) (report_carriages (reports_of reports.entry))) result }
{
    let each = reports.each;
    let mut against = Against { zero: 0, one: 0 };
    let mut number = first;
    for report in reports {
        let next = over_report(
            faults,
            number,
            ones,
            against,
            report.receiver,
            report.reporters,
        );
        against = next;
        number = number + each;
    }
    against
}
