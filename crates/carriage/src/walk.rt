// The way along a route.
ghost use Rattle.carriage.specs.Walks.{Walked};

// A route as its carriage goes along it.
#[derive(Drop)]
pub struct Walk {
    // Where the receiver stands in the operand.
    pub end: usize,
    // Some server before the receiver is faulty.
    pub hit: bool,
}

// The receiver is the last of the servers, so the walk ends where a fill byte comes next. The second
// byte of a route is a server, so the look-out for the fill starts after it.
pub fn walked(faulty: u8, operand: &[u8]) -> Walk
    ensures { Walked faulty operand.now result }
{
    if operand.len() < 8 {
        return Walk { end: 0, hit: false };
    }
    let mut hit = sets::member(faulty, operand[0]);
    // Kept: by place, since each turn looks at two bytes, a server and whether the fill comes next.
    for k in 1..7usize {
        let here = sets::member(faulty, operand[k]);
        if operand[k + 1] == 255 {
            return Walk { end: k, hit };
        }
        hit = hit | here;
    }
    Walk { end: 7, hit }
}
