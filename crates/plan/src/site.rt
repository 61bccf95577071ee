// What the checks of a plan hand on to one another.
ghost use Rattle.std.specs.Prelude.{◌≡◌, ◌≤◌};
ghost use Rattle.sets.specs.Sets.{minus, full};

// The network and one fault set F: for each server the servers that it has a link to, and V−F.
#[derive(Clone, Copy, Drop)]
pub(crate) struct Site {
    pub(crate) n: u8,
    pub(crate) f: u8,
    pub(crate) rows: [u8; 8],
    pub(crate) fault: u8,
    pub(crate) sound: u8,
    ghost most: { n ≤ 8 },
    ghost bound: { f ≤ 2 },
    ghost rest: { sound ≡ minus (full n) fault },
}

// How far a plan is checked: the place reached and the carriages so far, of which there is at most
// one for a byte.
#[derive(Clone, Copy, Drop)]
pub(crate) struct Reached {
    pub(crate) at: usize,
    pub(crate) carriages: usize,
    ghost few: { carriages ≤ at },
}
