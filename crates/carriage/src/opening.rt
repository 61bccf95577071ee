// What the opening command of a block fixes.
ghost use Rattle.std.specs.Prelude.{◌≡◌, ◌*◌, ◌≤◌, ◌<◌, get_or};
ghost use Rattle.carriage.specs.Openings.{OpensBy};

// n and f of the network, F, A and S of the block, and how many commands 11, 12, 13 and 14, bytes
// and carriages it has.
#[derive(Clone, Copy)]
pub struct Opening {
    pub n: u8,
    pub f: u8,
    pub fault: u8,
    pub side: u8,
    pub quorum: u8,
    pub inward: usize,
    pub among: usize,
    pub outward: usize,
    pub reports: usize,
    pub bytes: usize,
    pub carriages: usize,
}

// A byte that is not there counts as 0.
fn byte(block: &[u8], at: usize) -> u8
    ensures { result ≡ get_or block.now at 0 }
{
    block.get(at).copied().unwrap_or(0)
}

// The size of a set, from the table that is handed down.
fn size_in(sizes: &[u8; 256], set: u8) -> u8
    ensures { result ≡ get_or sizes.now set 0 }
{
    sizes[set as usize]
}

// Kept: a function of its own, as the bound of a product stands once here and not at four places.
fn product(a: usize, b: usize) -> usize
    requires { (a < 256) × (b ≤ 256) }
    ensures { (result ≡ a * b) × (result < 65536) }
{
    a * b
}

// What the opening command at the front fixes, where `sizes` is the table of sizes.
// Kept: the table goes in, since the function promises its answer for any 256 bytes (DECISIONS.md, 106).
pub fn read_opening(n: u8, f: u8, block: &[u8], sizes: &[u8; 256]) -> Opening
    ensures { OpensBy sizes.now n f block.now result }
{
    let fault = byte(block, 1);
    let side = byte(block, 2);
    let quorum = byte(block, 3);
    let sound = sets::minus(sets::full(n), fault);
    let each = (f as usize) + 1;
    let members = size_in(sizes, quorum) as usize;
    let others = size_in(sizes, sets::minus(quorum, side)) as usize;
    let outside = size_in(sizes, sets::minus(sound, quorum)) as usize;
    let inward = product(others, each);
    let among = product(members, members) - members;
    let outward = product(outside, each);
    let reports = size_in(sizes, fault) as usize;
    let routes = inward + among + outward;
    let bytes = 4 + 9 * routes + 3 * reports;
    let carriages = routes + product(reports, each);
    Opening {
        n,
        f,
        fault,
        side,
        quorum,
        inward,
        among,
        outward,
        reports,
        bytes,
        carriages,
    }
}
