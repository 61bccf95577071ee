// A block of an accepted plan.
ghost use Rattle.carriage.specs.Openings.{Ready};

use crate::opening::Opening;
use crate::ready_reports::Reports;
use crate::ready_routes::Routes;

// What its opening command fixes, and the plan from that command to its end. All its routes and
// reports are there, and name servers.
#[derive(Clone, Copy, Drop)]
pub struct Block<'a> {
    pub opening: Opening,
    pub bytes: &'a [u8],
    pub ghost ready: { Ready opening bytes.now },
}

impl<'a> Block<'a> {
    ghost use Rattle.std.specs.Prelude.{◌≡◌, ◌+◌};
    ghost use Rattle.carriage.specs.Openings.{block_at};
    ghost use Rattle.carriage.specs.Passing.{routes_of, reports_of};

    // The routes of 11, into S.
    pub fn inward(&self) -> Routes<'a>
        ensures { routes_of result ≡ (block_at self.now.opening self.now.bytes.now).inward }
    {
        Routes {
            block: self.bytes,
            at: 4,
            left: self.opening.inward,
        }
    }

    // The routes of 12, among S.
    pub fn among(&self) -> Routes<'a>
        ensures { routes_of result ≡ (block_at self.now.opening self.now.bytes.now).among }
    {
        Routes {
            block: self.bytes,
            at: 4 + 9 * self.opening.inward,
            left: self.opening.among,
        }
    }

    // The routes of 13, out of S.
    pub fn outward(&self) -> Routes<'a>
        ensures { routes_of result ≡ (block_at self.now.opening self.now.bytes.now).outward }
    {
        Routes {
            block: self.bytes,
            at: 4 + 9 * (self.opening.inward + self.opening.among),
            left: self.opening.outward,
        }
    }

    // The reports of 14, of f + 1 servers each.
    pub fn reports(&self) -> Reports<'a>
        ensures are { reports_of result ≡ (block_at self.now.opening self.now.bytes.now).reports }
        ensures each { result.each ≡ self.now.opening.f + 1 }
    {
        let routes = self.opening.inward + self.opening.among + self.opening.outward;
        Reports {
            block: self.bytes,
            at: 4 + 9 * routes,
            left: self.opening.reports,
            each: (self.opening.f as usize) + 1,
        }
    }
}
