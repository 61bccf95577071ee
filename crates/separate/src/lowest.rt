// The lowest members of a set.
ghost use Rattle.std.specs.Prelude.{◌≡◌};
ghost use Rattle.flow.specs.Search.{lowest_of};

// The `count` lowest members of the set, or all if it has not so many.
pub fn lowest_of(set: u8, count: u8) -> u8
    ensures { result ≡ lowest_of count set }
{
    let mut chosen: u8 = 0;
    for first in sets::ascending(set).take(count as usize) {
        chosen = sets::union(chosen, sets::single(first));
    }
    chosen
}
