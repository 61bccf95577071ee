// A route of a block of an accepted plan.
ghost use Rattle.carriage.specs.Openings.{RouteThere};

use crate::walk;

// Its operand, from the source on, and what follows it in the plan.
#[derive(Clone, Copy, Drop)]
pub struct Route<'a> {
    pub operand: &'a [u8],
    pub ghost whole: { RouteThere operand.now },
}

impl<'a> Route<'a> {
    ghost use Rattle.std.specs.Prelude.{◌≡◌, get_or};
    ghost use Rattle.rules.specs.Blocks.{carriage_of};
    ghost use Rattle.carriage.specs.Passing.{route_of};

    // Its source is the first of its servers.
    pub fn source(&self) -> u8
        ensures { result ≡ get_or (carriage_of (route_of self.now)).before 0 0 }
    {
        self.operand[0]
    }

    // Its receiver is the last: the way along it ends there.
    pub fn receiver(&self) -> u8
        ensures { result ≡ (carriage_of (route_of self.now)).receiver }
    {
        let way = walk::walked(0, self.operand);
        self.operand[way.end]
    }
}
