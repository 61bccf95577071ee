// Reads network.card, network.plan and run.in from the folder that it is run in, and prints the
// transcript of the run. A file that is not there counts as empty.
#![tactic(auto)]

ghost use Rattle.std.specs.Prelude.{◌≡◌, ◌≤◌, length, take, OnOk};
ghost use Rattle.std.specs.Io.KnownBytes.{Appends};
ghost use Rattle.transcript.specs.Text.{transcript};

use std::io::{Read, Write};
use std::rt::Files;
use std::{fs, io};

// Reads until the buffer is full, the file ends or a read fails; answers how many bytes there are.
// Kept: a buffer of fixed size with the count beside it, since `read_to_end` into a Vec could run out of
// memory, and the program answers every input.
fn read_full(file: &mut impl Read, buf: &mut [u8]) -> usize
    ensures { result ≤ length buf.new }
{
    let mut done = 0;
    // each round but the last brings a byte
    for _ in 0..buf.len() {
        match file.read(&mut buf[done..]) {
            Ok(n) if n > 0 => done += n,
            _ => break,
        }
    }
    done
}

// The file's bytes. One byte more than a file may have is read, so that a file that is too long is seen
// to be.
fn read_file<'a>(rt: &impl Files, path: &str, buf: &'a mut [u8]) -> &'a [u8]
    ensures { length result.now ≤ length buf.old }
{
    let length = match fs::open(rt, path) {
        Ok(mut file) => read_full(&mut file, &mut *buf),
        Err(_) => 0,
    };
    &buf[..length]
}

// Prints the transcript of the run, all of it and no more: it has at most 1,000 bytes.
fn print_transcript<W: Write>(
    out: &mut W,
    card: &[u8],
    plan: &[u8],
    run_in: &[u8],
) -> io::Result<()>
    ensures { OnOk result (Appends (W.contents out.old) (W.contents out.new) (transcript card.now plan.now run_in.now)) }
{
    let mut text = [0u8; 1000];
    let length = transcript::rehearse(card, plan, run_in, &mut text);
    out.write_all(&text[..length])
}

fn main(rt: HostRuntime) -> io::Result<()> {
    let mut card = [0u8; 65537];
    let mut plan = [0u8; 65537];
    let mut run_in = [0u8; 65537];
    print_transcript(
        &mut io::writer(&rt),
        read_file(&rt, "network.card", &mut card),
        read_file(&rt, "network.plan", &mut plan),
        read_file(&rt, "run.in", &mut run_in),
    )
}
