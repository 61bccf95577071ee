// The commands of a plan and the route check: a route's operand is eight bytes, the servers from the
// source to the receiver and then the fill.
#![tactic(auto)]

pub mod command;

ghost use Rattle.std.specs.Prelude.{◌≡◌, ◌==◌, position, cond, ◌+◌, ◌*◌, ◌≤◌, eqb, length, take};
ghost use Rattle.sets.specs.Sets.{minus};
ghost use Rattle.network.specs.Rows.{links_of};
ghost use Rattle.route.specs.Route.{path, checked_route, route_set};
ghost use Rattle.route.specs.Fills.{lack_of};

// Four bytes as one number, the first as the lowest digit.
fn four(a: u8, b: u8, c: u8, d: u8) -> u32
    ensures { result ≡ a + 256 * (b + 256 * (c + 256 * d)) }
{
    (a as u32) + 256 * (b as u32) + 65536 * (c as u32) + 16777216 * (d as u32)
}

// How far the eight bytes are from being all fill: the highest number less the one that they make
// up. The bytes are read as one word, so that a route's fill takes one test.
fn lacking(operand: &[u8]) -> u64
    requires { 8 ≤ length operand.now }
    ensures { result ≡ lack_of (take 8 operand.now) }
{
    let lower = four(operand[0], operand[1], operand[2], operand[3]) as u64;
    let upper = four(operand[4], operand[5], operand[6], operand[7]) as u64;
    18446744073709551615 - (lower + 4294967296 * upper)
}

// The servers of a route that ends at `last`: those of `sound` that are no longer free.
fn ended(sound: u8, free: u8, last: u8, receiver: u8) -> u8
    ensures { result ≡ cond (eqb last receiver) (minus sound free) 0 }
{
    if last == receiver {
        sets::minus(sound, free)
    } else {
        0
    }
}

// The set of the servers on the route that the operand starts with; empty where the route breaks a
// rule on its own. `sound` is V−F, `rows` has for each server those that it has a link to. After the
// source each server is one of those still free, linked from the one before; where only fill is
// left, it is the receiver.
pub fn check_route(sound: u8, rows: &[u8; 8], sources: u8, receiver: u8, operand: &[u8]) -> u8
    ensures { result ≡ route_set sound (links_of rows.now) sources receiver operand.now }
{
    if operand.len() < 8 {
        return 0;
    }
    let mut last = operand[0];
    if sets::member(sets::meet(sound, sources), last) {
        let mut free = sets::minus(sound, sets::single(last));
        let mut left = lacking(operand) / 256;
        for &server in &operand[1..8] {
            let linked = rows[last as usize];
            if sets::member(sets::meet(free, linked), server) {
                free = sets::minus(free, sets::single(server));
                last = server;
            } else {
                return 0;
            }
            left = left / 256;
            if left == 0 {
                return ended(sound, free, last, receiver);
            }
        }
        // never reached: after the eighth byte nothing is left
        return 0;
    }
    0
}

// The place of the first byte of fill.
fn fill_at(bytes: &[u8]) -> Option<usize>
    ensures { result ≡ position (λ b. b == 255) bytes.now }
{
    bytes.iter().position(|b| *b == 255)
}

// How many of the eight bytes stand before the fill, which starts at the first FF.
fn path_length(operand: &[u8]) -> usize
    requires { 8 ≤ length operand.now }
    ensures { (result ≡ length (path (take 8 operand.now))) × (result ≤ 8) }
{
    fill_at(&operand[..8]).unwrap_or(8)
}

// The servers of the route that the operand starts with, as that part of the caller's plan with
// the fill left off; empty where the route breaks a rule on its own.
pub fn route_part<'a>(
    sound: u8,
    rows: &[u8; 8],
    sources: u8,
    receiver: u8,
    operand: &'a [u8],
) -> &'a [u8]
    ensures { result.now ≡ checked_route sound (links_of rows.now) sources receiver operand.now }
{
    if operand.len() < 8 {
        return &operand[0..0];
    }
    if check_route(sound, rows, sources, receiver, operand) == 0 {
        return &operand[0..0];
    }
    let end = path_length(operand);
    &operand[0..end]
}
