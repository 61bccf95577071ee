// The C interface: a static library that a server in C or Rust links. Every answer is a row of
// words that the caller lends and this library fills; no call asks anything of its arguments.
#![tactic(auto)]

ghost use Rattle.std.specs.Prelude.{◌≡◌};
ghost use Rattle.network.specs.Card.{read_card};
ghost use Rattle.split.specs.Split.{split_test};
ghost use Rattle.part.specs.Calls.{start_call, commit_call};
ghost use Rattle.words.specs.Words.{card_words, split_words, state_from, stepped_words};
ghost use Rattle.agreement.specs.Words.{PrintWords, QuickWords, PlanWords, WriteWords, RouteWords, LoadWords, RunWords, AskWords};
ghost use Rattle.agreement.specs.Version.{version};

use network::card;
use plan::check;
use run::call;
use server::turn;
use writer::write;

// Kept, in all calls below: the parameters and the rows of words are those of the C interface.

// The version of this library: 1,000,000 * major + 1,000 * minor + patch.
pub fn agreement_version() -> u64
    ensures { result ≡ version }
{
    8_000
}

// Reads a card. The answer is 0, n, f, 0 and eight rows, row u the set of servers that u has a link
// to; or 2, what is at fault, the refusal's number, its place and eight zeros.
pub fn agreement_read_card(card: &[u8], answer: &mut [u64; 12])
    ensures { answer.new ≡ card_words (read_card card.now) }
{
    let mut links = [[false; 8]; 8];
    // Each arm fills the answer: with one row for both, the reader's loop is slower.
    match card::read_card(card, &mut links) {
        Ok(head) => {
            let words = words::network_words(head.n, head.f, links);
            *answer = words;
        }
        Err(r) => {
            let words = words::unread_words(r);
            *answer = words;
        }
    }
}

// Prints the clean card. The answer is 0, the number of bytes, 0, 0, with the card in the first lent
// bytes and the later ones as they were; or 2, what is at fault, the refusal's number, its place,
// with every lent byte as it was.
pub fn agreement_print_card(card: &[u8], lent: &mut [u8], answer: &mut [u64; 4])
    ensures { PrintWords card.now lent.old lent.new answer.new }
{
    let printed = printer::print_card(card, &mut *lent);
    let words = words::printed_words(printed);
    *answer = words;
}

// Writes a plan for the card. The answer is 0, the number of bytes, 0, 0, 0, 0, 0, 0, with the plan in
// the first lent bytes and the later ones as they were; or 2, what is at fault, the refusal's number,
// its place, and for 17 the first bad split F, L, C, R, else 0, 0, 0, 0, with every lent byte as it was.
pub fn agreement_write_plan(card: &[u8], lent: &mut [u8], answer: &mut [u64; 8])
    ensures { WriteWords card.now lent.old lent.new answer.new }
{
    let written = write::write_plan(card, &mut *lent);
    let words = words::written_words(written);
    *answer = words;
}

// Seeks f + 1 routes from the sources to the receiver that pass no server of `faults` and share nothing
// but the receiver. The answer is 0, 1, f + 1, 0, with the eight bytes of each route in the first lent
// bytes and the later ones as they were; or 0, 0, the servers that every such route meets, how many
// they are; or 2, what is at fault, the refusal's number, its place. But for routes that are found,
// every lent byte is as it was.
pub fn agreement_separate_routes(
    card: &[u8],
    faults: u8,
    sources: u8,
    receiver: u8,
    lent: &mut [u8],
    answer: &mut [u64; 4],
)
    ensures { RouteWords card.now faults sources receiver lent.old lent.new answer.new }
{
    let routed = routes::separate_routes(card, faults, sources, receiver, &mut *lent);
    let words = words::routed_words(routed);
    *answer = words;
}

// The split test. The answer is 0, 0, 0, 0, 0 where no split is bad; 1, F, L, C, R, the first bad
// split; or 2, what is at fault, the refusal's number, its place, 0.
pub fn agreement_split_test(card: &[u8], answer: &mut [u64; 5])
    ensures { answer.new ≡ split_words (split_test card.now) }
{
    let tested = split::split_test(card);
    let words = words::split_words(tested);
    *answer = words;
}

// The quick test for two-way sites. The answer is 0, 1 if the older rule holds and 0 if not, n, the
// least number of servers to be taken away; or 2, what is at fault, the refusal's number, its place.
pub fn agreement_quick_test(card: &[u8], answer: &mut [u64; 4])
    ensures { QuickWords card.now answer.new }
{
    let tested = two_way::quick_test(card);
    let words = words::quick_words(tested);
    *answer = words;
}

// The plan check. The answer is 0, the number of blocks, the number of carriages, 0, and then no
// split of the card's network is bad; or 2, what is at fault, the refusal's number, its place.
pub fn agreement_check_plan(card: &[u8], plan: &[u8], answer: &mut [u64; 4])
    ensures { PlanWords card.now plan.now answer.new }
{
    let checked = check::check_plan(card, plan);
    let words = words::totals_words(checked);
    *answer = words;
}

// The load on each relay. The answer is 0 and for each of the eight servers how many routes of the
// plan it relays; or 2, what is at fault, the refusal's number, its place and five zeros.
pub fn agreement_load(card: &[u8], plan: &[u8], answer: &mut [u64; 9])
    ensures { LoadWords card.now plan.now answer.new }
{
    let mut counts = [0usize; 8];
    let loaded = load::load(card, plan, &mut counts);
    let words = words::loaded_words(loaded, counts);
    *answer = words;
}

// The run. The answer is 0, the number of blocks, the number of carriages, 0, with the decided bits
// in the first n lent bytes, 2 for a faulty server; or 2, what is at fault, the refusal's number,
// its place, with every lent byte as it was.
pub fn agreement_run(
    card: &[u8],
    plan: &[u8],
    inputs: &[u8],
    faulty: u8,
    table: &[u8],
    lent: &mut [u8],
    answer: &mut [u64; 4],
)
    ensures { RunWords card.now plan.now inputs.now faulty table.now lent.old lent.new answer.new }
{
    let ran = call::run(card, plan, inputs, faulty, table, &mut *lent);
    let words = words::totals_words(ran);
    *answer = words;
}

// Where a server starts, with its own input. The answer is 0 and the five words of its state; or 2,
// what is at fault, the refusal's number, its place, 0, 0.
pub fn agreement_start(card: &[u8], plan: &[u8], server: u8, input: u8, answer: &mut [u64; 6])
    ensures { answer.new ≡ stepped_words (start_call card.now plan.now server input) }
{
    let started = turn::start(card, plan, server, input);
    let words = words::started_words(started);
    *answer = words;
}

// What a server sends as source in its state's kind of a block, into the lent buffer. The answer is
// 0, the five words of the state with its ask open, the number of values, and later lent bytes are
// as they were; or 2, what is at fault, the refusal's number, its place, 0, 0, 0, with every lent byte
// as it was.
pub fn agreement_ask(
    card: &[u8],
    plan: &[u8],
    server: u8,
    state: &[u64; 5],
    lent: &mut [u8],
    answer: &mut [u64; 7],
)
    ensures { AskWords card.now plan.now server state.now lent.old lent.new answer.new }
{
    let mut own = words::state_from(state);
    let asked = turn::ask(card, plan, server, &mut own, &mut *lent);
    let words = words::asked_words(asked, own);
    *answer = words;
}

// What arrived for a server as receiver is taken in. The answer is 0 and the five words of its state
// at the next kind, the next block or the end; or 2, what is at fault, the refusal's number, its
// place, 0, 0.
pub fn agreement_commit(
    card: &[u8],
    plan: &[u8],
    server: u8,
    state: &[u64; 5],
    arrived: &[u8],
    answer: &mut [u64; 6],
)
    ensures { answer.new ≡ stepped_words (commit_call card.now plan.now server (state_from state.now) arrived.now) }
{
    let mut own = words::state_from(state);
    let committed = turn::commit(card, plan, server, &mut own, arrived);
    let words = words::state_words(committed, own);
    *answer = words;
}
