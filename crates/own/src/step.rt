// The steps that a commit takes for one server, from what arrived for it: the first `due` bytes of
// `arrived`, each read as in the run. Later bytes have no effect.
ghost use Rattle.std.specs.Prelude.{◌≡◌, ◌≤◌};
ghost use Rattle.steps.specs.Hearing.{all, common};
ghost use Rattle.part.specs.Own.{own1, own_gather, own_compare, own5, own6};
ghost use Rattle.own.specs.Arrivals.{arrivals};
ghost use Rattle.own.specs.States.{own_of};
ghost use Rattle.own.specs.Commits.{committed_on, commit_any};

use crate::kind::Kind;
use crate::state::Own;
use carriage::arrival;
use carriage::opening::Opening;

// Every arrival is x.
fn alike(arrived: &[u8], due: usize, x: u8) -> bool
    ensures { result ≡ all x (arrivals arrived.now 0 due) }
{
    // Kept: by number, since an arrival that is missing counts too.
    for j in 0..due {
        if arrival::message(arrived, j) != x {
            return false;
        }
    }
    true
}

// The value that all arrivals are; 2 if they are not alike or there is none.
fn common(arrived: &[u8], due: usize) -> u8
    ensures { result ≡ common (arrivals arrived.now 0 due) }
{
    if due == 0 {
        return 2;
    }
    let x = arrival::message(arrived, 0);
    if alike(arrived, due, x) {
        return x;
    }
    2
}

// 1. A server of A sets t to v.
fn step1(side: u8, server: u8, own: Own) -> u8
    ensures { result ≡ own1 side server own.v own.t }
{
    if sets::member(side, server) {
        return own.v;
    }
    own.t
}

// 2 and 4. A receiver takes the common value of its arrivals, 2 where they are not alike.
fn gathered(receivers: u8, server: u8, arrived: &[u8], due: usize, t: u8) -> u8
    ensures { result ≡ own_gather receivers server (arrivals arrived.now 0 due) t }
{
    if sets::member(receivers, server) {
        return common(arrived, due);
    }
    t
}

// 3. A server of S keeps its t if every arrival equals it, else 2.
fn compared(quorum: u8, server: u8, arrived: &[u8], due: usize, t: u8) -> u8
    ensures { result ≡ own_compare quorum server (arrivals arrived.now 0 due) t }
{
    if sets::member(quorum, server) {
        if alike(arrived, due, t) {
            return t;
        }
        return 2;
    }
    t
}

// 5. A server of V−F outside A∩S whose t is 0 or 1 takes it as v.
fn step5(sound: u8, kept: u8, server: u8, t: u8, v: u8) -> u8
    ensures { result ≡ own5 sound kept server t v }
{
    if sets::member(sound, server) {
        if sets::member(kept, server) {
            return v;
        }
        if t < 2 {
            return t;
        }
    }
    v
}

// 6. A server of F takes the common value of its arrivals as v, where that is 0 or 1.
fn step6(fault: u8, server: u8, arrived: &[u8], due: usize, v: u8) -> u8
    ensures { result ≡ own6 fault server (arrivals arrived.now 0 due) v }
{
    if sets::member(fault, server) {
        let x = common(arrived, due);
        if x < 2 {
            return x;
        }
    }
    v
}

// Kept: the kind is a number, since `any` says what is answered for every number.
// The commit of a kind: 11 takes steps 1 and 2, 12 step 3, 13 steps 4 and 5, 14 step 6.
pub fn committed(
    opening: Opening,
    kind: u64,
    server: u8,
    arrived: &[u8],
    due: usize,
    own: Own,
) -> Own
    ensures any { own_of result ≡ commit_any opening kind server (arrivals arrived.now 0 due) (own_of own) }
    ensures few { opening.n ≤ 8 → own_of result ≡ committed_on opening kind server (arrivals arrived.now 0 due) (own_of own) }
{
    let side = opening.side;
    let quorum = opening.quorum;
    match Kind::from(kind) {
        Kind::Inward => {
            let begun = step1(side, server, own);
            let receivers = sets::minus(quorum, side);
            let t = gathered(receivers, server, arrived, due, begun);
            Own { t, ..own }
        }
        Kind::Among => {
            let t = compared(quorum, server, arrived, due, own.t);
            Own { t, ..own }
        }
        Kind::Outward => {
            let sound = sets::minus(sets::full(opening.n), opening.fault);
            let receivers = sets::minus(sound, quorum);
            let t = gathered(receivers, server, arrived, due, own.t);
            let v = step5(sound, sets::meet(side, quorum), server, t, own.v);
            Own { v, t }
        }
        Kind::Reports => {
            let v = step6(opening.fault, server, arrived, due, own.v);
            Own { v, ..own }
        }
    }
}
