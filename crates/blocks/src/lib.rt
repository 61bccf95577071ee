// One block of a plan as it is written into lent memory.
#![tactic(auto)]

mod bytes;
mod reports;
mod routes;

ghost use Rattle.blocks.specs.Written.{block_by, BlockPut};

use crate::bytes::Place;
use choice::Chosen;

// What all blocks of one F are written by.
#[derive(Clone, Copy, Drop)]
pub struct Site {
    // Row u has the servers that u has a link to.
    pub rows: [u8; 8],
    // Entry v has the servers with a link to v.
    pub sources: [u8; 8],
    // f + 1.
    pub count: u8,
    // V−F.
    pub sound: u8,
    // F.
    pub fault: u8,
}

// The block with the A and S that are chosen, from the start of `part` on as far as it has room; answers how many
// bytes the block has. S lies within A, so there is no route of 11.
pub fn put_block(part: &mut [u8], site: &Site, chosen: Chosen) -> usize
    ensures { BlockPut (block_by site.now.rows site.now.sources site.now.sound site.now.count site.now.fault chosen.side chosen.quorum) part.old part.new result }
{
    let mut place = Place { part, at: 0 };
    place.put_head(site.fault, chosen);
    place.put_mesh(site, chosen.quorum);
    place.put_fans(site, chosen.quorum);
    place.put_reports(site);
    place.at
}
