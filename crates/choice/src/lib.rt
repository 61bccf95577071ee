// The planner's choice for a block: which part of a cut is A, and which servers of it are S.
// For one F a table says which sets hold a weak set; the choices look it up.
#![tactic(auto)]

pub mod weak;

ghost use Rattle.std.specs.Prelude.{◌≡◌, ◌||◌, leb};
ghost use Rattle.split.specs.Sources.{outside_rows};
ghost use Rattle.planner.specs.Choice.{meets_all, without, quorum_of};
ghost use Rattle.choice.specs.WeakTable.{less_at, any_less};
ghost use Rattle.choice.specs.Choice.{Choice, Thinned};

use crate::weak::Weak;
use split::sources::Sources;

// One part of a cut of V−F, and the servers left of it.
#[derive(Clone, Copy, Drop)]
pub struct Chosen {
    pub side: u8,
    pub quorum: u8,
}

// Server x is in the set, and without x the set still holds a weak set.
// Kept: the table goes in by itself, here and below, as it is looked up while it is filled, when `Weak`
// can't say yet what it marks.
fn less_at(table: &[bool; 256], set: u8, x: u8) -> bool
    ensures { result ≡ less_at table.now set x }
{
    if sets::member(set, x) {
        let alone = sets::single(x);
        let less = sets::minus(set, alone) as usize;
        return table[less];
    }
    false
}

// Some server of the set can be left out of it, and what is left holds a weak set.
fn any_less(table: &[bool; 256], set: u8) -> bool
    ensures { result ≡ any_less table.now set }
{
    for x in 0..8u8 {
        if less_at(table, set, x) {
            return true;
        }
    }
    false
}

// The set is weak, or holds a weak set that lacks one of its servers, by a table with the entries of the
// smaller sets.
pub fn holds_weak(sources: &Sources, f: u8, fault: u8, table: &[bool; 256], set: u8) -> bool
    ensures { result ≡ (leb (outside_rows sources.now.rows fault set) f || any_less table.now set) }
{
    sources.is_weak(f, fault, set) || any_less(table, set)
}

impl<'a> Weak<'a> {
    // The set meets every weak set: what it leaves of V−F holds none.
    fn meets_all(&self, set: u8) -> bool
        ensures { result ≡ meets_all self.now.network.now.n self.now.network.now.f self.now.network.now.links self.now.fault set }
    {
        let left = sets::minus(self.sound, set);
        !self.table[left as usize]
    }

    // The set without x, if x is in it and it meets every weak set without x.
    fn without(&self, set: u8, x: u8) -> u8
        ensures { result ≡ without self.now.network.now.n self.now.network.now.f self.now.network.now.links self.now.fault set x }
    {
        if sets::member(set, x) {
            let less = sets::minus(set, sets::single(x));
            if self.meets_all(less) {
                return less;
            }
        }
        set
    }

    // This side, with what is left of it when the servers that are not needed are taken out, from the
    // highest on.
    fn thinned(&self, side: u8) -> Chosen
        ensures { Thinned self.now.network.now.n self.now.network.now.f self.now.network.now.links self.now.fault side result }
    {
        let mut quorum = side;
        for x in (0..8u8).rev() {
            quorum = self.without(quorum, x);
        }
        Chosen { side, quorum }
    }

    // A and S for a cut into this part and the rest of V−F. One of the two meets every weak set; if both
    // do, A is the one with the lower quorum.
    pub fn choose(&self, part: u8) -> Chosen
        ensures { Choice self.now.network.now.n self.now.network.now.f self.now.network.now.links self.now.fault part result }
    {
        let rest = sets::minus(self.sound, part);
        if !self.meets_all(part) {
            return self.thinned(rest);
        }
        let here = self.thinned(part);
        if !self.meets_all(rest) {
            return here;
        }
        let there = self.thinned(rest);
        if here.quorum < there.quorum {
            here
        } else {
            there
        }
    }
}
