// The reports of a block, to go over their commands in plan order.
ghost use Rattle.carriage.specs.Openings.{ReportsThere};

// A command of reports: the servers that report, and the one that they report to.
#[derive(Clone, Copy, Drop)]
pub struct Report {
    pub receiver: u8,
    pub reporters: u8,
}

// So many commands of reports, from this place of the block on, of so many servers each.
#[derive(Clone, Copy, Drop)]
pub struct Reports<'a> {
    pub block: &'a [u8],
    pub at: usize,
    pub left: usize,
    pub each: usize,
    pub ghost there: { ReportsThere block.now at left each },
}

impl<'a> Iterator for Reports<'a> {
    ghost use Rattle.std.specs.Iterator.{YieldsFirstBy, at_most};
    ghost use Rattle.carriage.specs.Passing.{report_of, reports_of};

    type Item = Report;

    ghost next_gives = { YieldsFirstBy report_of reports_of };

    ghost remaining = { λ s. at_most s.left };

    fn next(&mut self) -> Option<Report> {
        if self.left == 0 {
            return None;
        }
        let block = self.block;
        let report = Report {
            receiver: block[self.at + 1],
            reporters: block[self.at + 2],
        };
        *self = Reports {
            block,
            at: self.at + 3,
            left: self.left - 1,
            each: self.each,
        };
        Some(report)
    }
}
