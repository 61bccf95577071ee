// The reports of a block, laid into lent memory.
ghost use Rattle.std.specs.Prelude.{[], ◌∷◌, map, get_or, ◌≤◌, ◌<◌};
ghost use Rattle.sets.specs.Sets.{meet};
ghost use Rattle.flow.specs.Search.{lowest_of};
ghost use Rattle.sets.specs.Members.{members};
ghost use Rattle.rules.specs.Blocks.{encode_reports};
ghost use Rattle.blocks.specs.Written.{report_by};
ghost use Rattle.blocks.specs.Placed.{Placed};

use crate::Site;
use crate::bytes::Place;
use separate::lowest;

impl<'a> Place<'a> {
    // The report to one server: the `count` lowest servers of `sound` with a link to it.
    fn put_report(&mut self, site: &Site, receiver: u8)
        requires { (self.old.at ≤ 1000000) × (receiver < 8) }
        ensures { Placed (20 ∷ receiver ∷ lowest_of site.now.count (meet site.now.sound (get_or site.now.sources receiver 0)) ∷ []) 3 self.old self.new }
    {
        let near = site.sources[receiver as usize];
        let reporters = lowest::lowest_of(sets::meet(site.sound, near), site.count);
        self.put(20);
        self.put(receiver);
        self.put(reporters);
    }

    // The reports of 14: one to each server of F.
    pub(crate) fn put_reports(&mut self, site: &Site)
        requires { self.old.at ≤ 900000 }
        ensures { Placed (encode_reports (map (report_by site.now.sources site.now.sound site.now.count) (members site.now.fault))) 24 self.old self.new }
    {
        for k in sets::ascending(site.fault) {
            self.put_report(site, k);
        }
    }
}
