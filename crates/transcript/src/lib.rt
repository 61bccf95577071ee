// What `rehearse` prints, as bytes in a lent buffer. A buffer that is too short takes the bytes that
// fit; the answer is how many the whole text has.
#![tactic(auto)]

mod text;

ghost use Rattle.std.specs.Prelude.{◌≡◌, ◌||◌, cond, ◌≤◌, ◌<◌, replicate};
ghost use Rattle.refusal.specs.Refused.{refusal_of};
ghost use Rattle.network.specs.Card.{read_card};
ghost use Rattle.steps.specs.Run.{run_plan, lent_after};
ghost use Rattle.transcript.specs.Text.{faulty_word, decimal, totals_line, decided_line, decided_lines, refused_line, placed_line, faulty_of, inputs_of, table_of, answer_lines, files_lines, is_long, transcript, Put};

use crate::text::Text;
use network::Network;
use plan::check::Totals;
use refusal::Refusal;
use run::call;

// The faulty set of run.in: its first byte.
pub fn faulty_of(run_in: &[u8]) -> u8
    ensures { result ≡ faulty_of run_in.now }
{
    run_in.first().copied().unwrap_or(0)
}

// The inputs of run.in: the n bytes after the first, or what is there of them.
pub fn inputs_of(n: u8, run_in: &[u8]) -> &[u8]
    ensures { result.now ≡ inputs_of n run_in.now }
{
    let end = (n as usize) + 1;
    if run_in.len() == 0 {
        return &run_in[0..0];
    }
    if run_in.len() < end {
        return &run_in[1..];
    }
    &run_in[1..end]
}

// The message table of run.in: the bytes after the inputs.
pub fn table_of(n: u8, run_in: &[u8]) -> &[u8]
    ensures { result.now ≡ table_of n run_in.now }
{
    let start = (n as usize) + 1;
    if run_in.len() < start {
        return &run_in[0..0];
    }
    &run_in[start..]
}

// The file has more bytes than may be read.
fn is_long(file: &[u8]) -> bool
    ensures { result ≡ is_long file.now }
{
    65536 < file.len()
}

// One of the files has more bytes than may be read.
fn any_long(card: &[u8], plan: &[u8], run_in: &[u8]) -> bool
    ensures { result ≡ (is_long card.now || (is_long plan.now || is_long run_in.now)) }
{
    is_long(card) || is_long(plan) || is_long(run_in)
}

impl<'a> Text<'a> {
    fn put_totals(&mut self, totals: Totals)
        requires { self.old.at ≤ 1000 }
        ensures put { Put self.old.at (totals_line totals.blocks totals.carriages) 100 self.old.out.now self.new.out.now self.new.at }
        ensures same { self.new.out.ghost_name ≡ self.old.out.ghost_name }
    {
        self.put(b"blocks ");
        self.put_number(totals.blocks);
        self.put(b" carriages ");
        self.put_number(totals.carriages);
        self.put(b"\n");
    }

    // The word after "decided".
    fn put_word(&mut self, faulty: bool, bit: u8)
        requires { self.old.at ≤ 100000 }
        ensures put { Put self.old.at (cond faulty faulty_word (decimal bit)) 20 self.old.out.now self.new.out.now self.new.at }
        ensures same { self.new.out.ghost_name ≡ self.old.out.ghost_name }
    {
        if faulty {
            self.put(b"faulty");
        } else {
            self.put_number(usize::from(bit));
        }
    }

    fn put_server(&mut self, faulty: u8, decided: &[u8; 8], server: u8)
        requires { (self.old.at ≤ 10000) × (server < 8) }
        ensures put { Put self.old.at (decided_line faulty decided.now server) 100 self.old.out.now self.new.out.now self.new.at }
        ensures same { self.new.out.ghost_name ≡ self.old.out.ghost_name }
    {
        self.put(b"server ");
        self.put_number(usize::from(server));
        self.put(b" decided ");
        let bit = decided[server as usize];
        self.put_word(sets::member(faulty, server), bit);
        self.put(b"\n");
    }

    fn put_servers(&mut self, n: u8, faulty: u8, decided: &[u8; 8])
        requires { (self.old.at ≤ 5000) × (n ≤ 8) }
        ensures put { Put self.old.at (decided_lines faulty decided.now n 0) 800 self.old.out.now self.new.out.now self.new.at }
        ensures same { self.new.out.ghost_name ≡ self.old.out.ghost_name }
    {
        for server in 0..n {
            self.put_server(faulty, decided, server);
        }
    }

    // "refused", the file at fault, the number and the place.
    fn put_placed(&mut self, file: &[u8; 5], number: u8, place: usize)
        requires { self.old.at ≤ 1000 }
        ensures put { Put self.old.at (placed_line file.now number place) 100 self.old.out.now self.new.out.now self.new.at }
        ensures same { self.new.out.ghost_name ≡ self.old.out.ghost_name }
    {
        self.put(b"refused ");
        self.put(file);
        self.put_number(usize::from(number));
        self.put(b" ");
        self.put_number(place);
        self.put(b"\n");
    }

    // A call's refusal has no place.
    fn put_refusal(&mut self, r: Refusal)
        requires { self.old.at ≤ 1000 }
        ensures put { Put self.old.at (refused_line (refusal_of r)) 100 self.old.out.now self.new.out.now self.new.at }
        ensures same { self.new.out.ghost_name ≡ self.old.out.ghost_name }
    {
        let number = r.number();
        let place = r.place();
        match r {
            Refusal::Card(_) => self.put_placed(b"card ", number, place),
            Refusal::Plan(_) => self.put_placed(b"plan ", number, place),
            Refusal::Call(_) => {
                self.put(b"refused call ");
                self.put_number(usize::from(number));
                self.put(b"\n");
            }
        }
    }

    // The lines of a run with n servers.
    fn put_run(&mut self, card: &[u8], plan: &[u8], run_in: &[u8], n: u8)
        requires { (self.old.at ≤ 1000) × (n ≤ 8) }
        ensures put { Put self.old.at (answer_lines n (faulty_of run_in.now) (run_plan card.now plan.now (inputs_of n run_in.now) (faulty_of run_in.now) (replicate 8 0)) (lent_after card.now plan.now (inputs_of n run_in.now) (faulty_of run_in.now) (table_of n run_in.now) (replicate 8 0))) 1000 self.old.out.now self.new.out.now self.new.at }
        ensures same { self.new.out.ghost_name ≡ self.old.out.ghost_name }
    {
        let faulty = faulty_of(run_in);
        let inputs = inputs_of(n, run_in);
        let table = table_of(n, run_in);
        let mut decided = [0u8; 8];
        match call::run(card, plan, inputs, faulty, table, &mut decided) {
            Err(r) => self.put_refusal(r),
            Ok(totals) => {
                self.put_totals(totals);
                self.put_servers(n, faulty, &decided);
            }
        }
    }

    // The lines of three files that are not too long.
    fn put_files(&mut self, card: &[u8], plan: &[u8], run_in: &[u8])
        requires { self.old.at ≤ 1000 }
        ensures put { Put self.old.at (files_lines (read_card card.now) card.now plan.now run_in.now) 1000 self.old.out.now self.new.out.now self.new.at }
        ensures same { self.new.out.ghost_name ≡ self.old.out.ghost_name }
    {
        match Network::read(card) {
            Err(r) => self.put_refusal(r),
            Ok(network) => self.put_run(card, plan, run_in, network.n),
        }
    }

    // All that is printed.
    fn put_all(&mut self, card: &[u8], plan: &[u8], run_in: &[u8])
        requires { self.old.at ≡ 0 }
        ensures put { Put 0 (transcript card.now plan.now run_in.now) 1000 self.old.out.now self.new.out.now self.new.at }
        ensures same { self.new.out.ghost_name ≡ self.old.out.ghost_name }
    {
        if any_long(card, plan, run_in) {
            self.put(b"too long\n");
        } else {
            self.put_files(card, plan, run_in);
        }
    }
}

// All that `rehearse` prints for the bytes of its three files.
pub fn rehearse(card: &[u8], plan: &[u8], run_in: &[u8], out: &mut [u8]) -> usize
    ensures { Put 0 (transcript card.now plan.now run_in.now) 1000 out.old out.new result }
{
    let mut text = Text { out, at: 0 };
    text.put_all(card, plan, run_in);
    text.at
}
