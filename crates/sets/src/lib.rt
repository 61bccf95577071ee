// A set of servers is one byte: server i stands for 2^i.
#![tactic(auto)]

pub mod scan;
mod size_table;

ghost use Rattle.std.specs.Prelude.{◌≡◌, ◌+◌, ◌-◌, min};
ghost use Rattle.std.specs.Iterator.{YieldsFirst, at_most, item_count};
ghost use Rattle.sets.specs.Members.{members};
ghost use Rattle.sets.specs.Scan.{Passes};
ghost use Rattle.sets.specs.Sets.{has, single, full, union, meet, minus, within, size, lowest, next, TableOf};

use crate::scan::SetsApart;
use crate::size_table::SIZES;

// Server i is in s.
pub fn member(s: u8, i: u8) -> bool
    ensures { result ≡ has s i }
{
    if i < 8 {
        return (s >> i) % 2 == 1;
    }
    false
}

// The set of server i alone; a server past the eighth is in no set.
pub fn single(i: u8) -> u8
    ensures { result ≡ single i }
{
    if i < 8 {
        return 1u8 << i;
    }
    0
}

// All servers below n, of the eight that there can be.
pub fn full(n: u8) -> u8
    ensures { result ≡ full (min n 8) }
{
    if n < 8 {
        let above = 1u8 << n;
        return above - 1;
    }
    255
}

pub fn union(a: u8, b: u8) -> u8
    ensures { result ≡ union a b }
{
    a | b
}

pub fn meet(a: u8, b: u8) -> u8
    ensures { result ≡ meet a b }
{
    a & b
}

// The members of a that are not in b.
pub fn minus(a: u8, b: u8) -> u8
    ensures { result ≡ minus a b }
{
    a ^ (a & b)
}

// Every member of a is in b.
pub fn within(a: u8, b: u8) -> bool
    ensures { result ≡ within a b }
{
    (a & b) == a
}

// The table of sizes, for a caller that looks many sizes up.
pub fn sizes() -> [u8; 256]
    ensures { TableOf size result }
{
    SIZES
}

pub fn size(s: u8) -> u8
    ensures { result ≡ size s }
{
    SIZES[s as usize]
}

// The lowest member of s; 8 if s is empty.
pub fn lowest(s: u8) -> u8
    ensures { result ≡ lowest s }
{
    u8::trailing_zeros(s) as u8
}

// The least set after s that has no server of busy, for an s that has none; 256 where there is none among the sets of eight servers.
pub fn next_apart(s: u8, busy: u8) -> u16
    ensures { result ≡ next s busy }
{
    let after = ((s | busy) as u16) + 1;
    let b = busy as u16;
    after ^ (after & b)
}

// The members of a set, from the lowest on.
#[derive(Clone, Copy, Drop)]
pub struct Servers {
    // Those that are still to come.
    pub left: u8,
}

impl Iterator for Servers {
    type Item = u8;

    ghost next_gives = { YieldsFirst (λ m. members m.left) };

    ghost remaining = { item_count (λ m. members m.left) };

    fn next(&mut self) -> Option<u8> {
        if self.left == 0 {
            return None;
        }
        let first = lowest(self.left);
        self.left = minus(self.left, single(first));
        Some(first)
    }
}

// The members of s, to go over them.
pub fn ascending(s: u8) -> Servers
    ensures { result.left ≡ s }
{
    Servers { left: s }
}

impl Iterator for SetsApart {
    type Item = u8;

    ghost next_gives = { λ s r t. Passes s.next s.last s.busy r t.next t.last t.busy };

    ghost remaining = { λ s. at_most (s.last + 1 - s.next) };

    fn next(&mut self) -> Option<u8> {
        if (self.last as u16) < self.next {
            return None;
        }
        let set = self.next as u8;
        self.next = next_apart(set, self.busy);
        Some(set)
    }
}

// The sets of these servers that have no server of busy, ascending; not the empty one.
pub fn apart(servers: u8, busy: u8) -> SetsApart
    ensures { (result.next ≡ next 0 busy) × (result.last ≡ servers) × (result.busy ≡ busy) }
{
    SetsApart {
        next: next_apart(0, busy),
        last: servers,
        busy,
    }
}
