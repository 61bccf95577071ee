// Where a scan over the parts of a set is.
ghost use Rattle.std.specs.Prelude.{◌≡◌};
ghost use Rattle.sets.specs.Sets.{meet, minus};

// The ways of cutting `sound` in two, ascending, each known by its part. The sets before `next` are
// passed, and it has no server outside `sound`.
#[derive(Clone, Copy, Drop)]
pub struct Cuts {
    pub sound: u8,
    pub next: u16,
    ghost inside: { meet next (minus 255 sound) ≡ 0 },
}
