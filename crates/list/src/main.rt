// Lists the index of a SHA-1 repository that is on standard input: a line with its version and its number of entries, and whether the checksum was
// left out, a line for each entry, then what it has of a cache tree and of resolve-undo records. A refusal prints only its number and its place.

#![tactic(auto)]

mod name;

ghost use Rattle.std.specs.Prelude.{◌≤◌, IfOk, length};

use answers::Checksum;
use format::{Fault, Refusal};
use name::{Digits, Escaped};
use std::io;
use std::io::{ErrorKind, Read};

// How many bytes are taken at most.
const LIMIT: usize = 65536;

// Room for one byte more than is taken: it shows that there were too many.
const ROOM: usize = 65537;

fn main(rt: HostRuntime) -> io::Result<()> {
    let mut buffer = [0u8; ROOM];
    let n = read_full(&mut rt.reader(), &mut buffer)?;
    if LIMIT < n {
        return print_refusal(&rt, Refusal::TooLong.at(0));
    }
    let mut work = [0u8; 8192];
    list(&rt, &buffer[..n], &mut work)
}

// Reads until the buffer is full or the input ends, and answers how many bytes came.
fn read_full(input: &mut impl Read, buffer: &mut [u8]) -> io::Result<usize>
    ensures { IfOk result (λ n. n ≤ length buffer.new) }
{
    let mut filled = 0;
    for _ in 0..u64::MAX {
        if filled == buffer.len() {
            break;
        }
        match input.read(&mut buffer[filled..]) {
            Ok(0) => break,
            Ok(n) => filled += n,
            Err(e) if e.kind() == ErrorKind::Interrupted => {}
            Err(e) => return Err(e),
        }
    }
    Ok(filled)
}

fn list(rt: &impl Print, bytes: &[u8], work: &mut [u8; 8192]) -> io::Result<()> {
    let checked = index::check(kinds::SHA1, bytes, work);
    let summary = match checked {
        Ok(summary) => summary,
        Err(fault) => return print_refusal(rt, fault),
    };
    let version = summary.version;
    let entries = summary.entries;
    let checksum = words_of(summary.checksum);
    println!(rt; "version {version} entries {entries}{checksum}")?;
    list_entries(rt, bytes, work, entries)?;
    print_count(rt, "cache tree", summary.nodes, "nodes")?;
    print_count(rt, "resolve-undo", summary.records, "paths")
}

fn list_entries(
    rt: &impl Print,
    bytes: &[u8],
    work: &mut [u8; 8192],
    count: u32,
) -> io::Result<()> {
    for k in 0..count {
        list_entry(rt, bytes, work, k)?;
    }
    Ok(())
}

// Mode, object name, stage, tab, name. A mode has six octal digits; the first 20 bytes are the name of a SHA-1 object. No entry of an accepted file is
// refused.
fn list_entry(rt: &impl Print, bytes: &[u8], work: &mut [u8; 8192], k: u32) -> io::Result<()> {
    let shown = index::entry(kinds::SHA1, bytes, work, k);
    let answer = match shown {
        Ok(answer) => answer,
        Err(fault) => return print_refusal(rt, fault),
    };
    let mode = answer.fields.mode;
    let object = answer.fields.object;
    let object = Digits(&object[..20]);
    let stage = answer.fields.stage;
    let name = Escaped(answers::name_of(bytes, work, Ok(answer.shown)));
    println!(rt; "{mode:06o} {object} {stage}\t{name}")
}

// Nothing is said of a checksum that matches.
fn words_of(checksum: Checksum) -> &'static str {
    match checksum {
        Checksum::Matches => "",
        Checksum::LeftOut => " checksum left out",
        Checksum::Wrong => "",
    }
}

fn print_refusal(rt: &impl Print, fault: Fault) -> io::Result<()> {
    let number = fault.refusal.number();
    let place = fault.place;
    println!(rt; "refused {number} at {place}")
}

fn print_count(rt: &impl Print, what: &str, count: Option<u32>, unit: &str) -> io::Result<()> {
    match count {
        None => println!(rt; "{what} none"),
        Some(n) => println!(rt; "{what} {n} {unit}"),
    }
}
