// The kinds of steps that a block has, in the order in which they are taken.
ghost use Rattle.own.specs.Kinds.{Counts};

// The commands of the plan whose carriages a step brings.
#[derive(Clone, Copy, Debug, PartialEq, Eq)]
pub enum Kind {
    // 11, into S.
    Inward,
    // 12, among S.
    Among,
    // 13, out of S.
    Outward,
    // 14, to F.
    Reports,
}

// The kind that a state's word stands for. Words are checked before; one that is none of the four
// counts as 14, as in the definition.
impl From<u64> for Kind {
    ghost from_gives = { Counts };

    fn from(word: u64) -> Kind {
        match word {
            0x11 => Kind::Inward,
            0x12 => Kind::Among,
            0x13 => Kind::Outward,
            _ => Kind::Reports,
        }
    }
}
