// The blocks of an accepted plan, to go over them in plan order.
ghost use Rattle.carriage.specs.Openings.{Opened, Runnable-prop};
ghost use Rattle.std.proofs.Props.{props};

use crate::opening;
use crate::ready_block::Block;

// So many blocks from the front of these bytes on, for a network of n and f.
#[derive(Clone, Copy, Drop)]
pub struct Blocks<'a> {
    pub n: u8,
    pub f: u8,
    pub rest: &'a [u8],
    pub left: usize,
    pub ghost whole: { Opened n f rest.now left } by { Prim.hlevel (Runnable-prop, props) },
}

impl<'a> Iterator for Blocks<'a> {
    ghost use Rattle.std.specs.Iterator.{at_most};
    ghost use Rattle.carriage.specs.Passing.{Passing};

    type Item = Block<'a>;

    ghost next_gives = { Passing };

    ghost remaining = { λ s. at_most s.left };

    fn next(&mut self) -> Option<Block<'a>> {
        if self.left == 0 {
            return None;
        }
        let here = self.rest;
        let sizes = sets::sizes();
        let opening = opening::read_opening(self.n, self.f, here, &sizes);
        let after = &here[opening.bytes..];
        *self = Blocks {
            n: self.n,
            f: self.f,
            rest: after,
            left: self.left - 1,
        };
        Some(Block {
            opening,
            bytes: here,
        })
    }
}
