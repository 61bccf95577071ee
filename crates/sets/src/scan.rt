// The sets that keep clear of a set, to go over them.
ghost use Rattle.std.specs.Prelude.{◌≡◌};
ghost use Rattle.sets.specs.Sets.{meet};

// Where a scan over the sets that have no server of `busy` stands.
#[derive(Clone, Copy, Drop)]
pub struct SetsApart {
    // The next one.
    pub next: u16,
    // No set after this one comes.
    pub last: u8,
    pub busy: u8,
    ghost clear: { meet next busy ≡ 0 },
}
