// Answers as arrays of numbers, and the fields of an entry from arrays that a caller lends.

#![tactic(auto)]

ghost use Rattle.std.specs.Prelude.{◌≡◌, ◌++◌, ◌+◌, ◌≤◌};
ghost use Rattle.format.specs.Refusals.{number_of, numbered_at};
ghost use Rattle.replies.specs.Arrays.{refusal_reply, is_left_out, check_reply, name_reply, shown_reply, entry_reply, node_reply, undo_reply, step_reply, field_numbers, fields_shown, shown_in, given_fields, write_reply, start_reply};

use answers::{Checksum, EntryAnswer, NodeAnswer, Shown, Summary, UndoAnswer};
use entries::record::Fields;
use format::Fault;
use walk::Place;

// The types on both sides are of other crates or of the library: so the conversions are functions, and no From.

// ---- the fields of an entry

pub fn field_numbers(f: Fields) -> [u32; 14]
    ensures { result ≡ field_numbers f }
{
    [
        f.ctime_seconds,
        f.ctime_nanoseconds,
        f.mtime_seconds,
        f.mtime_nanoseconds,
        f.dev,
        f.ino,
        f.mode,
        f.uid,
        f.gid,
        f.size,
        u32::from(f.assume_valid),
        f.stage,
        u32::from(f.skip_worktree),
        u32::from(f.intent_to_add),
    ]
}

// The fields that a caller gives.
pub fn given_fields(numbers: &[u32; 14], object: &[u8; 32]) -> Fields
    ensures { result ≡ given_fields numbers.now object.now }
{
    Fields {
        ctime_seconds: numbers[0],
        ctime_nanoseconds: numbers[1],
        mtime_seconds: numbers[2],
        mtime_nanoseconds: numbers[3],
        dev: numbers[4],
        ino: numbers[5],
        mode: numbers[6],
        uid: numbers[7],
        gid: numbers[8],
        size: numbers[9],
        object: *object,
        assume_valid: numbers[10] != 0,
        stage: numbers[11],
        skip_worktree: numbers[12] != 0,
        intent_to_add: numbers[13] != 0,
    }
}

// The fields beside a reply: zeros and false of a refusal.
pub fn fields_shown(answer: Result<EntryAnswer, Fault>) -> Fields
    ensures { result ≡ fields_shown (numbered_at answer) }
{
    match answer {
        Ok(entry) => entry.fields,
        Err(_) => entries::record::no_fields(),
    }
}

// Where the name of an entry is.
pub fn shown_in(answer: Result<EntryAnswer, Fault>) -> Result<Shown, Fault>
    ensures { numbered_at result ≡ shown_in (numbered_at answer) }
{
    match answer {
        Ok(entry) => Ok(entry.shown),
        Err(fault) => Err(fault),
    }
}

// ---- replies

// Of a refusal: its number, its place, zeros.
fn refusal_reply<const N: usize>(fault: Fault) -> [u64; N]
    requires { 2 ≤ N }
    ensures { result ≡ refusal_reply N (record { number = number_of fault.refusal; place = fault.place }) }
{
    let mut reply = [0u64; N];
    reply[0] = u64::from(fault.refusal.number());
    reply[1] = fault.place as u64;
    reply
}

// A number, since other languages have it.
fn is_left_out(c: Checksum) -> u64
    ensures { result ≡ is_left_out c }
{
    u64::from(c == Checksum::LeftOut)
}

pub fn check_reply(checked: Result<Summary, Fault>) -> [u64; 16]
    ensures { result ≡ check_reply (numbered_at checked) }
{
    match checked {
        Err(fault) => refusal_reply::<16>(fault),
        Ok(s) => [
            0,
            0,
            u64::from(s.version),
            u64::from(s.entries),
            s.end as u64,
            u64::from(s.nodes.is_some()),
            u64::from(s.nodes.unwrap_or(0)),
            u64::from(s.records.is_some()),
            u64::from(s.records.unwrap_or(0)),
            is_left_out(s.checksum),
            0,
            0,
            0,
            0,
            0,
            0,
        ],
    }
}

fn name_reply(shown: Shown) -> [u64; 5]
    ensures { result ≡ name_reply shown }
{
    match shown {
        Shown::InFile(at, n) => [0, 0, 1, at as u64, n as u64],
        Shown::InWorkspace(n) => [0, 0, 2, 0, n as u64],
    }
}

// And more numbers after it.
fn shown_then<const K: usize, const N: usize>(shown: Shown, more: [u64; K]) -> [u64; N]
    requires { N ≡ 5 + K }
    ensures { result ≡ name_reply shown ++ more.entry }
{
    let mut reply = [0u64; N];
    let (first, rest) = reply[..].split_at_mut(5);
    first.copy_from_slice(&name_reply(shown));
    rest.copy_from_slice(&more);
    reply
}

pub fn shown_reply(shown: Result<Shown, Fault>) -> [u64; 5]
    ensures { result ≡ shown_reply (numbered_at shown) }
{
    match shown {
        Err(fault) => refusal_reply::<5>(fault),
        Ok(name) => name_reply(name),
    }
}

pub fn entry_reply(answer: Result<EntryAnswer, Fault>) -> [u64; 5]
    ensures { result ≡ entry_reply (numbered_at answer) }
{
    shown_reply(shown_in(answer))
}

pub fn node_reply(answer: Result<NodeAnswer, Fault>) -> [u64; 9]
    ensures { result ≡ node_reply (numbered_at answer) }
{
    match answer {
        Err(fault) => refusal_reply::<9>(fault),
        Ok(node) => shown_then(
            node.shown,
            [
                u64::from(node.level),
                u64::from(node.count.is_some()),
                u64::from(node.count.unwrap_or(0)),
                u64::from(node.subtrees),
            ],
        ),
    }
}

pub fn undo_reply(answer: Result<UndoAnswer, Fault>) -> [u64; 8]
    ensures { result ≡ undo_reply (numbered_at answer) }
{
    match answer {
        Err(fault) => refusal_reply::<8>(fault),
        Ok(record) => shown_then(
            record.shown,
            [
                u64::from(record.first_mode),
                u64::from(record.second_mode),
                u64::from(record.third_mode),
            ],
        ),
    }
}

pub fn step_reply(shown: Result<Shown, Fault>, next: Place) -> [u64; 7]
    ensures { result ≡ step_reply (numbered_at shown) next }
{
    match shown {
        Err(fault) => refusal_reply::<7>(fault),
        Ok(name) => shown_then(name, [next.at as u64, u64::from(next.left)]),
    }
}

pub fn write_reply(written: Result<usize, Fault>) -> [u64; 3]
    ensures { result ≡ write_reply (numbered_at written) }
{
    match written {
        Err(fault) => refusal_reply::<3>(fault),
        Ok(n) => [0, 0, n as u64],
    }
}

pub fn start_reply(started: Result<u32, Fault>) -> [u64; 4]
    ensures { result ≡ start_reply (numbered_at started) }
{
    match started {
        Err(fault) => refusal_reply::<4>(fault),
        Ok(n) => [0, 0, 12, u64::from(n)],
    }
}
