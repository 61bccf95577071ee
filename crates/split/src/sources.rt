// Who has a link into a set. Two tables hold it, for the sets of the lower four servers and for those of
// the upper four, so that a scan over many sets looks it up.
ghost use Rattle.std.specs.Prelude.{◌≡◌, cond, ◌≤◌, ◌<◌, leb};
ghost use Rattle.sets.specs.Sets.{has};
ghost use Rattle.split.specs.Sources.{sources_to, SourceRows, into_half, HalfTable, into_of, into_rows, outside_rows};

// The servers with a link to v.
fn source_row(links: &[[bool; 8]; 8], v: usize) -> u8
    requires { v < 8 }
    ensures { result ≡ sources_to links.now v }
{
    let mut row: u8 = 0;
    for u in 0..8usize {
        if links[u][v] {
            row = sets::union(row, 1u8 << u);
        }
    }
    row
}

// The sources of each server.
pub fn source_rows(links: [[bool; 8]; 8]) -> [u8; 8]
    ensures { SourceRows links result }
{
    let mut rows = [0u8; 8];
    for v in 0..8usize {
        let row = source_row(&links, v);
        rows[v] = row;
    }
    rows
}

// The row, if server i is in x.
fn kept(x: u8, i: u8, row: u8) -> u8
    ensures { result ≡ cond (has x i) row 0 }
{
    if sets::member(x, i) {
        return row;
    }
    0
}

// The servers with a link into the servers of x, which are counted from `first` on.
fn into_half(rows: [u8; 8], first: usize, x: u8) -> u8
    requires { first ≤ 4 }
    ensures { result ≡ into_half rows first x }
{
    let a = kept(x, 0, rows[first]);
    let b = kept(x, 1, rows[first + 1]);
    let c = kept(x, 2, rows[first + 2]);
    let d = kept(x, 3, rows[first + 3]);
    sets::union(d, sets::union(c, sets::union(b, a)))
}

// The same for every set of the four servers from `first` on.
fn half_table(rows: [u8; 8], first: usize) -> [u8; 16]
    requires { first ≤ 4 }
    ensures { HalfTable rows first result }
{
    let mut table = [0u8; 16];
    for x in 0..16usize {
        let s = x as u8;
        let into = into_half(rows, first, s);
        table[x] = into;
    }
    table
}

// The servers with a link into the sets of the lower four servers.
// Kept: it and the next differ in a constant alone, but both are public functions that ask nothing of a
// caller (DECISIONS.md, 90), and one with the constant as a parameter would ask that it is at most 4.
pub fn lower_table(rows: [u8; 8]) -> [u8; 16]
    ensures { HalfTable rows 0 result }
{
    half_table(rows, 0)
}

// The servers with a link into the sets of the upper four servers.
pub fn upper_table(rows: [u8; 8]) -> [u8; 16]
    ensures { HalfTable rows 4 result }
{
    half_table(rows, 4)
}

// The servers with a link into s, by the two tables.
pub fn into(lower: &[u8; 16], upper: &[u8; 16], s: u8) -> u8
    ensures { result ≡ into_of lower.now upper.now s }
{
    let low = (s % 16) as usize;
    let high = (s / 16) as usize;
    sets::union(upper[high], lower[low])
}

// The sources of a network's servers.
#[derive(Clone, Copy, Drop)]
pub struct Sources {
    // Those of each server.
    pub rows: [u8; 8],
    // The servers with a link into the sets of the lower four servers, and of the upper four.
    pub lower: [u8; 16],
    pub upper: [u8; 16],
    ghost low: { HalfTable rows 0 lower },
    ghost high: { HalfTable rows 4 upper },
}

impl Sources {
    // Both tables of these rows. A caller that may be done with the rows alone makes them first.
    pub fn from_rows(rows: [u8; 8]) -> Sources
        ensures { result.rows ≡ rows }
    {
        let lower = lower_table(rows);
        let upper = upper_table(rows);
        Sources { rows, lower, upper }
    }

    pub fn of(links: [[bool; 8]; 8]) -> Sources
        ensures { SourceRows links result.rows }
    {
        let rows = source_rows(links);
        Sources::from_rows(rows)
    }

    // The servers with a link into s.
    pub fn linked_into(&self, s: u8) -> u8
        ensures { result ≡ into_rows self.now.rows s }
    {
        into(&self.lower, &self.upper, s)
    }

    // The set s has at most f incoming neighbours outside F: then it can be a side of a bad split,
    // whatever the other side is.
    pub fn is_weak(&self, f: u8, fault: u8, s: u8) -> bool
        ensures { result ≡ leb (outside_rows self.now.rows fault s) f }
    {
        let into = self.linked_into(s);
        let neighbours = sets::minus(into, s);
        let outside = sets::minus(neighbours, fault);
        sets::size(outside) <= f
    }
}
