// Which sets hold a weak set, for one F.
ghost use Rattle.std.specs.Prelude.{◌≡◌};
ghost use Rattle.sets.specs.Sets.{full, minus};
ghost use Rattle.choice.specs.WeakTable.{WeakTable};

use network::Network;

// The sets apart from F that hold a weak set.
#[derive(Clone, Copy, Drop)]
pub struct Weak<'a> {
    pub network: &'a Network,
    // F, and V−F.
    pub fault: u8,
    pub sound: u8,
    // The entry of such a set is marked.
    pub table: &'a [bool; 256],
    ghost rest: { sound ≡ minus (full network.now.n) fault },
    ghost marks: { WeakTable network.now.n network.now.f network.now.links fault table.now },
}
