// How many carriages of a kind a server sends on, and how many come to it.
ghost use Rattle.std.specs.Prelude.{◌≡◌, ◌==◌, ◌<◌, [], map, length, count_by};
ghost use Rattle.sets.specs.Sets.{has};
ghost use Rattle.rules.specs.Blocks.{carriage_of};
ghost use Rattle.carriage.specs.Openings.{block_at};
ghost use Rattle.carriage.specs.Passing.{routes_of, reports_of};
ghost use Rattle.own.specs.Kinds.{word_of};
ghost use Rattle.part.specs.Own.{source, given, received, carriages_of};

use carriage::ready_block::Block;
use carriage::ready_reports::Reports;
use carriage::ready_routes::Routes;
use own::kind::Kind;

// The routes whose source is this server.
fn routes_from(routes: Routes, server: u8) -> usize
    ensures { result ≡ count_by (λ p. source (carriage_of p) == server) (routes_of routes.entry) }
{
    routes.filter(|r| r.source() == server).count()
}

// The routes whose receiver is this server.
fn routes_to(routes: Routes, server: u8) -> usize
    ensures { result ≡ count_by (λ p. (carriage_of p).receiver == server) (routes_of routes.entry) }
{
    routes.filter(|r| r.receiver() == server).count()
}

// The reports that this server gives: one for each command with it among the reporters.
fn reports_from(reports: Reports, server: u8) -> usize
    ensures { result ≡ count_by (λ r. has r.reporters server) (reports_of reports.entry) }
{
    reports
        .filter(|r| sets::member(r.reporters, server))
        .count()
}

// The commands whose reports this server gets.
fn reports_to(reports: Reports, server: u8) -> usize
    ensures { result ≡ count_by (λ r. r.receiver == server) (reports_of reports.entry) }
{
    reports.filter(|r| r.receiver == server).count()
}

// The carriages of this kind whose source is the server.
pub(crate) fn sent(block: &Block, kind: Kind, server: u8) -> usize
    requires { server < 8 }
    ensures { result ≡ length (given 0 server (carriages_of (word_of kind) (block_at block.now.opening block.now.bytes.now))) }
{
    match kind {
        Kind::Inward => routes_from(block.inward(), server),
        Kind::Among => routes_from(block.among(), server),
        Kind::Outward => routes_from(block.outward(), server),
        Kind::Reports => reports_from(block.reports(), server),
    }
}

// The carriages of this kind whose receiver is the server; a command of reports brings one from each
// of its reporters.
pub(crate) fn due(block: &Block, kind: Kind, server: u8) -> usize
    ensures { result ≡ length (received [] 0 server (carriages_of (word_of kind) (block_at block.now.opening block.now.bytes.now))) }
{
    match kind {
        Kind::Inward => routes_to(block.inward(), server),
        Kind::Among => routes_to(block.among(), server),
        Kind::Outward => routes_to(block.outward(), server),
        Kind::Reports => {
            let reports = block.reports();
            reports_to(reports, server) * reports.each
        }
    }
}
