// The C interface: a static library that a server in C or Rust links. Each function hands its call
// on to the one of `agreement` of its name, and states the clauses of that one again.
#![tactic(auto)]

ghost use Rattle.std.specs.Prelude.{◌≡◌};
ghost use Rattle.network.specs.Card.{read_card};
ghost use Rattle.split.specs.Split.{split_test};
ghost use Rattle.part.specs.Calls.{start_call, commit_call};
ghost use Rattle.words.specs.Words.{card_words, split_words, state_from, stepped_words};
ghost use Rattle.agreement.specs.Words.{PrintWords, QuickWords, PlanWords, WriteWords, RouteWords, LoadWords, RunWords, AskWords};
ghost use Rattle.agreement.specs.Version.{version};

// Kept, in all calls below: a twin of each call of `agreement`, since a crate with exports for C is no library that
// `cases` could use.

// The version of this library: 1,000,000 * major + 1,000 * minor + patch.
#[unsafe(no_mangle)]
pub extern "C" fn agreement_version() -> u64
    ensures { result ≡ version }
{
    agreement::agreement_version()
}

// Reads a card. The answer is 0, n, f, 0 and eight rows, row u the set of servers that u has a link
// to; or 2, what is at fault, the refusal's number, its place and eight zeros.
#[unsafe(no_mangle)]
pub extern "C" fn agreement_read_card(card: &[u8], answer: &mut [u64; 12])
    ensures { answer.new ≡ card_words (read_card card.now) }
{
    agreement::agreement_read_card(card, &mut *answer);
}

// Prints the clean card. The answer is 0, the number of bytes, 0, 0, with the card in the first lent
// bytes and the later ones as they were; or 2, what is at fault, the refusal's number, its place,
// with every lent byte as it was.
#[unsafe(no_mangle)]
pub extern "C" fn agreement_print_card(card: &[u8], lent: &mut [u8], answer: &mut [u64; 4])
    ensures { PrintWords card.now lent.old lent.new answer.new }
{
    agreement::agreement_print_card(card, &mut *lent, &mut *answer);
}

// Writes a plan for the card. The answer is 0, the number of bytes, 0, 0, 0, 0, 0, 0, with the plan in
// the first lent bytes and the later ones as they were; or 2, what is at fault, the refusal's number,
// its place, and for 17 the first bad split F, L, C, R, else 0, 0, 0, 0, with every lent byte as it was.
#[unsafe(no_mangle)]
pub extern "C" fn agreement_write_plan(card: &[u8], lent: &mut [u8], answer: &mut [u64; 8])
    ensures { WriteWords card.now lent.old lent.new answer.new }
{
    agreement::agreement_write_plan(card, &mut *lent, &mut *answer);
}

// Seeks f + 1 routes from the sources to the receiver that pass no server of `faults` and share nothing
// but the receiver. The answer is 0, 1, f + 1, 0, with the eight bytes of each route in the first lent
// bytes and the later ones as they were; or 0, 0, the servers that every such route meets, how many
// they are; or 2, what is at fault, the refusal's number, its place. But for routes that are found,
// every lent byte is as it was.
#[unsafe(no_mangle)]
pub extern "C" fn agreement_separate_routes(
    card: &[u8],
    faults: u8,
    sources: u8,
    receiver: u8,
    lent: &mut [u8],
    answer: &mut [u64; 4],
)
    ensures { RouteWords card.now faults sources receiver lent.old lent.new answer.new }
{
    agreement::agreement_separate_routes(card, faults, sources, receiver, &mut *lent, &mut *answer);
}

// The split test. The answer is 0, 0, 0, 0, 0 where no split is bad; 1, F, L, C, R, the first bad
// split; or 2, what is at fault, the refusal's number, its place, 0.
#[unsafe(no_mangle)]
pub extern "C" fn agreement_split_test(card: &[u8], answer: &mut [u64; 5])
    ensures { answer.new ≡ split_words (split_test card.now) }
{
    agreement::agreement_split_test(card, &mut *answer);
}

// The quick test for two-way sites. The answer is 0, 1 if the older rule holds and 0 if not, n, the
// least number of servers to be taken away; or 2, what is at fault, the refusal's number, its place.
#[unsafe(no_mangle)]
pub extern "C" fn agreement_quick_test(card: &[u8], answer: &mut [u64; 4])
    ensures { QuickWords card.now answer.new }
{
    agreement::agreement_quick_test(card, &mut *answer);
}

// The plan check. The answer is 0, the number of blocks, the number of carriages, 0, and then no
// split of the card's network is bad; or 2, what is at fault, the refusal's number, its place.
#[unsafe(no_mangle)]
pub extern "C" fn agreement_check_plan(card: &[u8], plan: &[u8], answer: &mut [u64; 4])
    ensures { PlanWords card.now plan.now answer.new }
{
    agreement::agreement_check_plan(card, plan, &mut *answer);
}

// The load on each relay. The answer is 0 and for each of the eight servers how many routes of the
// plan it relays; or 2, what is at fault, the refusal's number, its place and five zeros.
#[unsafe(no_mangle)]
pub extern "C" fn agreement_load(card: &[u8], plan: &[u8], answer: &mut [u64; 9])
    ensures { LoadWords card.now plan.now answer.new }
{
    agreement::agreement_load(card, plan, &mut *answer);
}

// The run. The answer is 0, the number of blocks, the number of carriages, 0, with the decided bits
// in the first n lent bytes, 2 for a faulty server; or 2, what is at fault, the refusal's number,
// its place, with every lent byte as it was.
#[unsafe(no_mangle)]
pub extern "C" fn agreement_run(
    card: &[u8],
    plan: &[u8],
    inputs: &[u8],
    faulty: u8,
    table: &[u8],
    lent: &mut [u8],
    answer: &mut [u64; 4],
)
    ensures { RunWords card.now plan.now inputs.now faulty table.now lent.old lent.new answer.new }
{
    agreement::agreement_run(card, plan, inputs, faulty, table, &mut *lent, &mut *answer);
}

// Where a server starts, with its own input. The answer is 0 and the five words of its state; or 2,
// what is at fault, the refusal's number, its place, 0, 0.
#[unsafe(no_mangle)]
pub extern "C" fn agreement_start(
    card: &[u8],
    plan: &[u8],
    server: u8,
    input: u8,
    answer: &mut [u64; 6],
)
    ensures { answer.new ≡ stepped_words (start_call card.now plan.now server input) }
{
    agreement::agreement_start(card, plan, server, input, &mut *answer);
}

// What a server sends as source in its state's kind of a block, into the lent buffer. The answer is
// 0, the five words of the state with its ask open, the number of values, and later lent bytes are
// as they were; or 2, what is at fault, the refusal's number, its place, 0, 0, 0, with every lent byte
// as it was.
#[unsafe(no_mangle)]
pub extern "C" fn agreement_ask(
    card: &[u8],
    plan: &[u8],
    server: u8,
    state: &[u64; 5],
    lent: &mut [u8],
    answer: &mut [u64; 7],
)
    ensures { AskWords card.now plan.now server state.now lent.old lent.new answer.new }
{
    agreement::agreement_ask(card, plan, server, state, &mut *lent, &mut *answer);
}

// What arrived for a server as receiver is taken in. The answer is 0 and the five words of its state
// at the next kind, the next block or the end; or 2, what is at fault, the refusal's number, its
// place, 0, 0.
#[unsafe(no_mangle)]
pub extern "C" fn agreement_commit(
    card: &[u8],
    plan: &[u8],
    server: u8,
    state: &[u64; 5],
    arrived: &[u8],
    answer: &mut [u64; 6],
)
    ensures { answer.new ≡ stepped_words (commit_call card.now plan.now server (state_from state.now) arrived.now) }
{
    agreement::agreement_commit(card, plan, server, state, arrived, &mut *answer);
}
