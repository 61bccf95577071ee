// The routes of a kind of a block, to go over them in plan order.
ghost use Rattle.carriage.specs.Openings.{RoutesThere};

use crate::ready_route::Route;

// So many commands of routes, from this place of the block on.
#[derive(Clone, Copy, Drop)]
pub struct Routes<'a> {
    pub block: &'a [u8],
    pub at: usize,
    pub left: usize,
    pub ghost there: { RoutesThere block.now at left },
}

impl<'a> Iterator for Routes<'a> {
    ghost use Rattle.std.specs.Iterator.{YieldsFirstBy, at_most};
    ghost use Rattle.carriage.specs.Passing.{route_of, routes_of};

    type Item = Route<'a>;

    ghost next_gives = { YieldsFirstBy route_of routes_of };

    ghost remaining = { λ s. at_most s.left };

    fn next(&mut self) -> Option<Route<'a>> {
        if self.left == 0 {
            return None;
        }
        let block = self.block;
        let place = self.at + 1;
        let operand = &block[place..];
        *self = Routes {
            block,
            at: self.at + 9,
            left: self.left - 1,
        };
        Some(Route { operand })
    }
}
