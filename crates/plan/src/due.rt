// What a plan has a block for: each fault set of at most f servers, and each way of cutting the
// servers outside it into two parts.
ghost use Rattle.std.specs.Prelude.{◌≡◌, min};
ghost use Rattle.std.specs.Iterator.{YieldsFirst, item_count};
ghost use Rattle.plan.specs.Due.{is_part};
ghost use Rattle.plan.specs.Ahead.{parts, parts_left, faults, faults_left};

use crate::scan::Cuts;

// The part holds the lowest server of `sound`, lies within it and is not all of it.
pub fn is_part(sound: u8, part: u8) -> bool
    ensures { result ≡ is_part sound part }
{
    sets::within(part, sound) && sets::member(part, sets::lowest(sound)) && part != sound
}

impl Iterator for Cuts {
    type Item = u8;

    ghost next_gives = { YieldsFirst parts_left };

    ghost remaining = { item_count parts_left };

    fn next(&mut self) -> Option<u8> {
        let sound = self.sound;
        let others = sets::minus(255, sound);
        let mut next = self.next;
        // Kept: a step takes it past many sets, so that no range is gone over.
        while next < sound as u16 {
            let set = next as u8;
            next = sets::next_apart(set, others);
            if is_part(sound, set) {
                self.next = next;
                return Some(set);
            }
        }
        self.next = next;
        None
    }
}

// The parts by which the cuts of `sound` are known.
pub fn parts(sound: u8) -> Cuts
    ensures { parts_left result ≡ parts sound }
{
    Cuts { sound, next: 0 }
}

// The fault sets of a network, ascending.
#[derive(Clone, Copy, Drop)]
pub struct FaultSets {
    pub f: u8,
    // The set of all servers.
    pub servers: u8,
    // The sets before it are passed.
    pub next: u16,
}

impl Iterator for FaultSets {
    type Item = u8;

    ghost next_gives = { YieldsFirst faults_left };

    ghost remaining = { item_count faults_left };

    fn next(&mut self) -> Option<u8> {
        let f = self.f;
        let limit = (self.servers as u16) + 1;
        for set in self.next..limit {
            let fault = set as u8;
            if sets::size(fault) <= f {
                self.next = set + 1;
                return Some(fault);
            }
        }
        self.next = limit;
        None
    }
}

// The sets of at most f of the n servers.
pub fn faults(n: u8, f: u8) -> FaultSets
    ensures { faults_left result ≡ faults (min n 8) f }
{
    FaultSets {
        f,
        servers: sets::full(n),
        next: 0,
    }
}
