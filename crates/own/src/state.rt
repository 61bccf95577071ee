// Where a server stands between two calls, as words that a server can store.
ghost use Rattle.std.specs.Prelude.{◌≡◌, ◌&&◌, ◌<◌, ltb};
ghost use Rattle.part.specs.State.{first, placed, stands, opened, next};
ghost use Rattle.own.specs.States.{state_of, own_of, moved_on};

// Words of any size may be handed in; those of no state are refused.
// Kept: five words and no enum, since they are the words of the C interface and of `part`.
#[derive(Clone, Copy)]
pub struct State {
    // The block, from 0; at the end the number of blocks.
    pub block: u64,
    // The kind, the command 11, 12, 13 or 14 of the plan; 15 at the end.
    pub kind: u64,
    pub v: u64,
    pub t: u64,
    // 1 while an ask is open, else 0.
    pub asked: u64,
}

// The values of a server.
#[derive(Clone, Copy)]
pub struct Own {
    // 0 or 1.
    pub v: u8,
    // 0, 1, or 2 for unsure.
    pub t: u8,
}

// The state at this kind of this block, with these values and no ask open.
fn at(block: u64, kind: u64, own: Own) -> State
    ensures { state_of result ≡ record { block = block; kind = kind; v = own.v; t = own.t; asked = 0 } }
{
    State {
        block,
        kind,
        v: own.v as u64,
        t: own.t as u64,
        asked: 0,
    }
}

// At first v is the input and t is unsure.
pub fn first(input: u8) -> State
    ensures { state_of result ≡ first input }
{
    at(0, 0x11, Own { v: input, t: 2 })
}

// The state is at a kind of a block or at the end of a plan with so many blocks.
fn placed(blocks: u64, state: State) -> bool
    ensures { result ≡ placed blocks (state_of state) }
{
    if state.kind == 0x15 {
        if state.block == blocks {
            return state.asked == 0;
        }
        return false;
    }
    if state.block < blocks {
        if 0x10 < state.kind {
            if state.kind < 0x15 {
                return state.asked < 2;
            }
        }
    }
    false
}

// The server is in V, the state is a place of the plan, and its values are such as a server holds.
pub fn stands(n: u8, blocks: usize, server: u8, state: State) -> bool
    ensures { result ≡ (ltb server n && stands blocks (state_of state)) }
{
    if server < n {
        if placed(blocks as u64, state) {
            if state.v < 2 {
                return state.t < 3;
            }
        }
    }
    false
}

// The ask is open; at the end none opens.
pub fn opened(state: State) -> State
    ensures { state_of result ≡ opened (state_of state) }
{
    if state.kind == 0x15 {
        return State { asked: 0, ..state };
    }
    State { asked: 1, ..state }
}

// The next kind, the next block, or the end, with these values and no ask open. After a block that
// the plan does not have comes the end.
pub fn next(blocks: usize, state: State, own: Own) -> State
    ensures any { state_of result ≡ moved_on blocks (state_of state) (own_of own) }
    ensures inside { state.block < blocks → state_of result ≡ next blocks (state_of state) (own_of own) }
{
    if state.kind < 0x14 {
        return at(state.block, state.kind + 1, own);
    }
    let end = blocks as u64;
    if state.block < end {
        let after = state.block + 1;
        if after < end {
            return at(after, 0x11, own);
        }
    }
    at(end, 0x15, own)
}
