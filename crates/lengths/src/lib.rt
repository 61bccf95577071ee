// How many bytes the plan has that is written for a network: the same for all networks of n servers and
// the fault bound f that a plan is written for.
#![tactic(auto)]

ghost use Rattle.lengths.specs.Length.{Length};

// For n servers and the bound f, in row n at f.
const LENGTHS: [[usize; 3]; 9] = [
    [1, 1, 1],
    [1, 1, 1],
    [14, 23, 32],
    [67, 196, 277],
    [218, 923, 1550],
    [601, 3276, 6681],
    [1520, 10025, 24215],
    [3655, 28106, 78443],
    [8510, 74471, 235548],
];

// The length of the plan; 0 for an n or f that no card has.
pub fn plan_length(n: u8, f: u8) -> usize
    ensures { Length n f result }
{
    if 8 < n || 2 < f {
        return 0;
    }
    LENGTHS[n as usize][f as usize]
}
