// The words of each answer of the library: from an answer, as the calls give it, to the row of words
// that a caller without our enums gets. The first word is 0 answered, 1 a bad split, 2 refused.
#![tactic(auto)]

ghost use Rattle.std.specs.Prelude.{◌≡◌, [], ◌∷◌, ◌++◌, ◌-◌, ◌≤◌, replicate};
ghost use Rattle.refusal.specs.Refused.{refusal_of};
ghost use Rattle.network.specs.Card.{network, refused};
ghost use Rattle.network.specs.Links.{linked_in};
ghost use Rattle.network.specs.Rows.{rows_of};
ghost use Rattle.printer.specs.Answers.{printed_of};
ghost use Rattle.split.specs.Answers.{split_answer_of};
ghost use Rattle.two_way.specs.Answers.{quick_answer_of};
ghost use Rattle.plan.specs.Answers.{checked_of};
ghost use Rattle.writer.specs.Answers.{written_of};
ghost use Rattle.routes.specs.Answers.{routing_of};
ghost use Rattle.load.specs.Answers.{loaded_of};
ghost use Rattle.own.specs.States.{state_of};
ghost use Rattle.server.specs.Answers.{verdict_of, started_of, counted_of};
ghost use Rattle.words.specs.Words.{refused_words, card_words, print_words, write_words, route_words, split_words, quick_words, plan_words, load_words, state_from, state_row, state_words, stepped_words};

use network::links;
use own::state::State;
use plan::check::Totals;
use refusal::Refusal;
use routes::Routing;
use split::Split;
use two_way::Rule;
use writer::write::Unwritten;

// 2, what is at fault, the refusal's number, its place.
pub fn refused_words(r: Refusal) -> [u64; 4]
    ensures { result ≡ refused_words (refusal_of r) }
{
    padded::<4>(r)
}

// The same in a row of N words: zeros follow.
fn padded<const N: usize>(r: Refusal) -> [u64; N]
    requires { 4 ≤ N }
    ensures { result ≡ refused_words (refusal_of r) ++ replicate (N - 4) 0 }
{
    let mut words = [0u64; N];
    words[0] = 2;
    words[1] = r.whose() as u64;
    words[2] = r.number() as u64;
    words[3] = r.place() as u64;
    words
}

// Four words, then for each of the eight servers the set of servers that it has a link to.
fn card_words(head: [u64; 4], links: [[bool; 8]; 8]) -> [u64; 12]
    ensures { result ≡ head ++ rows_of (linked_in links) }
{
    let rows = links::rows(links);
    [
        head[0],
        head[1],
        head[2],
        head[3],
        rows[0] as u64,
        rows[1] as u64,
        rows[2] as u64,
        rows[3] as u64,
        rows[4] as u64,
        rows[5] as u64,
        rows[6] as u64,
        rows[7] as u64,
    ]
}

// A card that is read: 0, n, f, 0 and the eight rows.
pub fn network_words(n: u8, f: u8, links: [[bool; 8]; 8]) -> [u64; 12]
    ensures { result ≡ card_words (network n f links) }
{
    card_words([0, n as u64, f as u64, 0], links)
}

// A refused card: the refusal and eight zeros.
pub fn unread_words(r: Refusal) -> [u64; 12]
    ensures { result ≡ card_words (refused (refusal_of r)) }
{
    padded::<12>(r)
}

// The printer's answer: 0, the number of bytes, 0, 0; or the refusal.
pub fn printed_words(printed: Result<usize, Refusal>) -> [u64; 4]
    ensures { result ≡ print_words (printed_of printed) }
{
    match printed {
        Ok(bytes) => [0, bytes as u64, 0, 0],
        Err(r) => refused_words(r),
    }
}

// The plan writer's answer: 0, the number of bytes and six zeros; or the refusal, and for 17 the first
// bad split F, L, C, R, else four zeros.
pub fn written_words(written: Result<usize, Unwritten>) -> [u64; 8]
    ensures { result ≡ write_words (written_of written) }
{
    match written {
        Ok(bytes) => [0, bytes as u64, 0, 0, 0, 0, 0, 0],
        Err(Unwritten::Split(Split { f, l, c, r })) => {
            [2, 2, 17, 0, f as u64, l as u64, c as u64, r as u64]
        }
        Err(Unwritten::Refused(r)) => padded::<8>(r),
    }
}

// The answer to a call for separate routes: 0, 1, how many routes, 0; or 0, 0, the servers that every
// route meets, how many they are; or the refusal.
pub fn routed_words(routed: Result<Routing, Refusal>) -> [u64; 4]
    ensures { result ≡ route_words (routing_of routed) }
{
    match routed {
        Ok(Routing::Routes { count }) => [0, 1, count as u64, 0],
        Ok(Routing::Cut { servers }) => {
            let many = sets::size(servers);
            [0, 0, servers as u64, many as u64]
        }
        Err(r) => refused_words(r),
    }
}

// The split test's answer: five zeros; or 1, F, L, C, R, the first bad split; or the refusal and 0.
pub fn split_words(tested: Result<Option<Split>, Refusal>) -> [u64; 5]
    ensures { result ≡ split_words (split_answer_of tested) }
{
    match tested {
        Ok(None) => [0; 5],
        Ok(Some(Split { f, l, c, r })) => [1, f as u64, l as u64, c as u64, r as u64],
        Err(r) => padded::<5>(r),
    }
}

// The quick test's answer: 0, 1 if the older rule holds and 0 if not, n, the least number of servers to
// be taken away; or the refusal.
pub fn quick_words(tested: Result<Rule, Refusal>) -> [u64; 4]
    ensures { result ≡ quick_words (quick_answer_of tested) }
{
    match tested {
        Ok(Rule { holds, n, least }) => [0, holds as u64, n as u64, least as u64],
        Err(r) => refused_words(r),
    }
}

// The answer of the plan check and of the run: 0, the number of blocks, the number of carriages, 0; or
// the refusal.
pub fn totals_words(totals: Result<Totals, Refusal>) -> [u64; 4]
    ensures { result ≡ plan_words (checked_of totals) }
{
    match totals {
        Ok(Totals { blocks, carriages }) => [0, blocks as u64, carriages as u64, 0],
        Err(r) => refused_words(r),
    }
}

// The load's answer with the counts after it: 0 and the eight counts; or the refusal and five zeros.
pub fn loaded_words(loaded: Result<(), Refusal>, counts: [usize; 8]) -> [u64; 9]
    ensures { result ≡ load_words (loaded_of loaded counts) }
{
    match loaded {
        Ok(()) => [
            0,
            counts[0] as u64,
            counts[1] as u64,
            counts[2] as u64,
            counts[3] as u64,
            counts[4] as u64,
            counts[5] as u64,
            counts[6] as u64,
            counts[7] as u64,
        ],
        Err(r) => padded::<9>(r),
    }
}

// A state from its five words: block, kind, v, t, and 1 where an ask is open.
// Kept: a function and no `From`, which can be written only where `State` is, below the words of the C interface.
pub fn state_from(words: &[u64; 5]) -> State
    ensures { state_of result ≡ state_from words.now }
{
    let [block, kind, v, t, asked] = *words;
    State {
        block,
        kind,
        v,
        t,
        asked,
    }
}

// 0 and the five words of a state, in a row of N words: zeros follow.
fn state_row<const N: usize>(state: State) -> [u64; N]
    requires { 6 ≤ N }
    ensures { result ≡ (0 ∷ state_row (state_of state)) ++ replicate (N - 6) 0 }
{
    let mut row = [0u64; N];
    row[1] = state.block;
    row[2] = state.kind;
    row[3] = state.v;
    row[4] = state.t;
    row[5] = state.asked;
    row
}

// The answer of start: 0 and the five words of the state; or the refusal, 0, 0.
pub fn started_words(started: Result<State, Refusal>) -> [u64; 6]
    ensures { result ≡ stepped_words (started_of started) }
{
    match started {
        Ok(state) => state_row::<6>(state),
        Err(r) => padded::<6>(r),
    }
}

// The answer of commit: the same, with the state after it.
pub fn state_words(outcome: Result<(), Refusal>, state: State) -> [u64; 6]
    ensures { result ≡ state_words (verdict_of outcome) (state_of state) }
{
    match outcome {
        Ok(()) => state_row::<6>(state),
        Err(r) => padded::<6>(r),
    }
}

// The answer of ask: those six words and the number of values.
pub fn asked_words(asked: Result<usize, Refusal>, state: State) -> [u64; 7]
    ensures { result ≡ state_words (verdict_of asked) (state_of state) ++ counted_of asked ∷ [] }
{
    match asked {
        Ok(values) => {
            let mut words = state_row::<7>(state);
            words[6] = values as u64;
            words
        }
        Err(r) => padded::<7>(r),
    }
}
