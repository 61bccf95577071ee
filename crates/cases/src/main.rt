// Given cases, read from standard input, with the library's answers printed a line each. The
// answers that they should get are in the file stdout, which was not made by this program.
//
// A case is a byte for its kind and then its parts; a part is its length in three bytes, high byte
// first, and its bytes.
//     c CARD                                   the words of the card reader
//     s CARD                                   the words of the split test
//     q CARD                                   the words of the quick test
//     b CARD BUFFER                            the words of the card printed back, and the lent bytes
//                                              after it
//     p CARD PLAN                              the words of the plan check
//     f CARD                                   the words of the plan writer with 300,000 bytes lent, and
//                                              where a plan is written those of the plan check of it
//     w SITE OPERAND                           the set of a route's servers, and the servers as they
//                                              are handed back
//     l CARD PLAN                              the words of the load on each relay
//     r CARD PLAN INPUTS FAULTY TABLE BUFFER   the words of the run, and the lent bytes after it
//     t CARD PLAN RUN                          what rehearse prints
//     o CARD PLAN SERVER INPUT                 the words of a server's start
//     a CARD PLAN SERVER STATE BUFFER          the words of its ask, and the lent bytes after it
//     m CARD PLAN SERVER STATE ARRIVED         the words of its commit
// A state is its five words, three bytes each, high byte first.
#![tactic(auto)]

ghost use Rattle.std.specs.Prelude.{◌≤◌, length, IfOk};

use std::fmt::Display;
use std::io;
use std::io::Read;

// What is left of the cases; its parts are taken from the front.
#[derive(Drop)]
struct Parts<'a> {
    rest: &'a [u8],
}

impl<'a> Parts<'a> {
    // The next part, or what is there of it.
    fn take(&mut self) -> &'a [u8]
        ensures { length self.new.rest.now ≤ length self.old.rest.now }
    {
        let rest = self.rest;
        if rest.len() < 3 {
            self.rest = &rest[..0];
            return &rest[..0];
        }
        let length = number(rest).min(rest.len() - 3);
        self.rest = &rest[3 + length..];
        &rest[3..3 + length]
    }

    // The next part's first byte; 0 where the part is empty.
    fn take_byte(&mut self) -> u8
        ensures { length self.new.rest.now ≤ length self.old.rest.now }
    {
        self.take().first().copied().unwrap_or(0)
    }
}

// The number of three bytes at the front, high byte first; 0 where there are not so many.
fn number(s: &[u8]) -> usize
    ensures { result ≤ 16777215 }
{
    match s {
        [high, middle, low, ..] => {
            usize::from(*high) * 65536 + usize::from(*middle) * 256 + usize::from(*low)
        }
        _ => 0,
    }
}

// Words or bytes, each with a space after it.
fn print_all<T: Display>(rt: &impl Print, items: &[T]) -> io::Result<()> {
    for item in items {
        print!(rt; "{item} ")?;
    }
    Ok(())
}

fn card_case(rt: &impl Print, card: &[u8]) -> io::Result<()> {
    let mut answer = [9u64; 12];
    agreement::agreement_read_card(card, &mut answer);
    print_all(rt, &answer)
}

fn split_case(rt: &impl Print, card: &[u8]) -> io::Result<()> {
    let mut answer = [9u64; 5];
    agreement::agreement_split_test(card, &mut answer);
    print_all(rt, &answer)
}

fn quick_case(rt: &impl Print, card: &[u8]) -> io::Result<()> {
    let mut answer = [9u64; 4];
    agreement::agreement_quick_test(card, &mut answer);
    print_all(rt, &answer)
}

fn plan_case(rt: &impl Print, card: &[u8], plan: &[u8]) -> io::Result<()> {
    let mut answer = [9u64; 4];
    agreement::agreement_check_plan(card, plan, &mut answer);
    print_all(rt, &answer)
}

fn write_into(rt: &impl Print, card: &[u8], lent: &mut [u8]) -> io::Result<()> {
    let mut answer = [9u64; 8];
    agreement::agreement_write_plan(card, &mut *lent, &mut answer);
    print_all(rt, &answer)?;
    if answer[0] == 0 {
        let bytes = answer[1] as usize;
        plan_case(rt, card, lent.get(..bytes).unwrap_or(&[]))?;
    }
    Ok(())
}

// Apart from write_case, so that no proof writes out all the bytes.
fn write_within(rt: &impl Print, card: &[u8], lent: &mut [u8; 300000]) -> io::Result<()> {
    write_into(rt, card, &mut *lent)
}

// Kept: what is lent is of fixed size, here and below, and on no heap, which could be used up: the program
// answers every input.
fn write_case(rt: &impl Print, card: &[u8]) -> io::Result<()> {
    let mut lent = [165u8; 300000];
    write_within(rt, card, &mut lent)
}

fn load_case(rt: &impl Print, card: &[u8], plan: &[u8]) -> io::Result<()> {
    let mut answer = [9u64; 9];
    agreement::agreement_load(card, plan, &mut answer);
    print_all(rt, &answer)
}

// The site is V−F, the eight rows of links, the sources and the receiver, a byte each.
fn route_case(rt: &impl Print, site: &[u8], operand: &[u8]) -> io::Result<()> {
    if let [sound, a, b, c, d, e, f, g, h, sources, receiver, ..] = site {
        let rows = [*a, *b, *c, *d, *e, *f, *g, *h];
        let set = route::check_route(*sound, &rows, *sources, *receiver, operand);
        let servers = route::route_part(*sound, &rows, *sources, *receiver, operand);
        print_all(rt, &[set])?;
        print_all(rt, servers)?;
    }
    Ok(())
}

// How many bytes are lent: as many as the part has, and at most 256.
fn lent_size(buffer: &[u8]) -> usize
    ensures { result ≤ 256 }
{
    buffer.len().min(256)
}

fn print_into(rt: &impl Print, card: &[u8], lent: &mut [u8]) -> io::Result<()> {
    let mut answer = [9u64; 4];
    agreement::agreement_print_card(card, &mut *lent, &mut answer);
    print_all(rt, &answer)?;
    print_all(rt, lent)
}

fn print_case(rt: &impl Print, card: &[u8], buffer: &[u8]) -> io::Result<()> {
    let mut lent = [165u8; 256];
    let size = lent_size(buffer);
    print_into(rt, card, &mut lent[..size])
}

fn run_into(
    rt: &impl Print,
    card: &[u8],
    plan: &[u8],
    inputs: &[u8],
    faulty: u8,
    table: &[u8],
    lent: &mut [u8],
) -> io::Result<()> {
    let mut answer = [9u64; 4];
    agreement::agreement_run(card, plan, inputs, faulty, table, &mut *lent, &mut answer);
    print_all(rt, &answer)?;
    print_all(rt, lent)
}

fn run_case(
    rt: &impl Print,
    card: &[u8],
    plan: &[u8],
    inputs: &[u8],
    faulty: u8,
    table: &[u8],
    buffer: &[u8],
) -> io::Result<()> {
    let mut lent = [165u8; 256];
    let size = lent_size(buffer);
    run_into(rt, card, plan, inputs, faulty, table, &mut lent[..size])
}

// What rehearse prints has its own line ends.
fn transcript_case(rt: &impl Print, card: &[u8], plan: &[u8], run_in: &[u8]) -> io::Result<()> {
    let mut text = [0u8; 1000];
    let length = transcript::rehearse(card, plan, run_in, &mut text);
    rt.write_all(&text[..length])
}

fn start_case(rt: &impl Print, card: &[u8], plan: &[u8], server: u8, input: u8) -> io::Result<()> {
    let mut answer = [9u64; 6];
    agreement::agreement_start(card, plan, server, input, &mut answer);
    print_all(rt, &answer)
}

// The five words of a state; zeros where the part is too short for them.
fn state_words(state: &[u8]) -> [u64; 5] {
    let mut words = [0; 5];
    if 15 <= state.len() {
        for i in 0..5usize {
            words[i] = number(&state[3 * i..]) as u64;
        }
    }
    words
}

fn ask_into(
    rt: &impl Print,
    card: &[u8],
    plan: &[u8],
    server: u8,
    state: [u64; 5],
    lent: &mut [u8],
) -> io::Result<()> {
    let mut answer = [9u64; 7];
    agreement::agreement_ask(card, plan, server, &state, &mut *lent, &mut answer);
    print_all(rt, &answer)?;
    print_all(rt, lent)
}

fn ask_case(
    rt: &impl Print,
    card: &[u8],
    plan: &[u8],
    server: u8,
    state: &[u8],
    buffer: &[u8],
) -> io::Result<()> {
    let mut lent = [165u8; 256];
    let size = lent_size(buffer);
    ask_into(
        rt,
        card,
        plan,
        server,
        state_words(state),
        &mut lent[..size],
    )
}

fn commit_case(
    rt: &impl Print,
    card: &[u8],
    plan: &[u8],
    server: u8,
    state: &[u8],
    arrived: &[u8],
) -> io::Result<()> {
    let mut answer = [9u64; 6];
    let state = state_words(state);
    agreement::agreement_commit(card, plan, server, &state, arrived, &mut answer);
    print_all(rt, &answer)
}

// The case of this kind whose parts come next; any other byte counts as r.
fn answer_case(rt: &impl Print, kind: u8, parts: &mut Parts<'_>) -> io::Result<()>
    ensures { length parts.new.rest.now ≤ length parts.old.rest.now }
{
    let card = parts.take();
    match kind {
        b'c' => card_case(rt, card)?,
        b's' => split_case(rt, card)?,
        b'q' => quick_case(rt, card)?,
        b'f' => write_case(rt, card)?,
        b'b' => print_case(rt, card, parts.take())?,
        b'p' => plan_case(rt, card, parts.take())?,
        b'l' => load_case(rt, card, parts.take())?,
        b'w' => route_case(rt, card, parts.take())?,
        b't' => {
            let plan = parts.take();
            return transcript_case(rt, card, plan, parts.take());
        }
        b'o' => {
            let plan = parts.take();
            let server = parts.take_byte();
            start_case(rt, card, plan, server, parts.take_byte())?;
        }
        b'a' => {
            let plan = parts.take();
            let server = parts.take_byte();
            let state = parts.take();
            ask_case(rt, card, plan, server, state, parts.take())?;
        }
        b'm' => {
            let plan = parts.take();
            let server = parts.take_byte();
            let state = parts.take();
            commit_case(rt, card, plan, server, state, parts.take())?;
        }
        _ => {
            let plan = parts.take();
            let inputs = parts.take();
            let faulty = parts.take_byte();
            let table = parts.take();
            run_case(rt, card, plan, inputs, faulty, table, parts.take())?;
        }
    }
    println!(rt)
}

// Reads until the buffer is full or the input ends; answers how many bytes there are.
fn read_full(input: &mut impl Read, buf: &mut [u8]) -> io::Result<usize>
    ensures { IfOk result (λ n. n ≤ length buf.new) }
{
    let mut done = 0;
    // each round but the last brings a byte
    for _ in 0..buf.len() {
        let n = input.read(&mut buf[done..])?;
        if n == 0 {
            break;
        }
        done += n;
    }
    Ok(done)
}

// Reads the cases into the lent bytes and answers them.
fn answer_all(rt: &(impl Input + Print), buf: &mut [u8]) -> io::Result<()> {
    let n = read_full(&mut rt.reader(), &mut *buf)?;
    let mut left = &buf[..n];
    while let Some((kind, rest)) = left.split_first() {
        let mut parts = Parts { rest };
        answer_case(rt, *kind, &mut parts)?;
        left = parts.rest;
    }
    Ok(())
}

// Apart from main, so that no proof writes out all the zeros.
fn answer_within(rt: &(impl Input + Print), buf: &mut [u8; 4194304]) -> io::Result<()> {
    answer_all(rt, &mut *buf)
}

fn main(rt: HostRuntime) -> io::Result<()> {
    let mut buf = [0u8; 4194304];
    answer_within(&rt, &mut buf)
}
