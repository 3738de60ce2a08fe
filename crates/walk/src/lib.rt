// A walk over the entries of a file of version 2 or 3: the next entry, step by step, without a workspace. The kind says which function gives object
// names: 1 is SHA-1, 2 is SHA-256. It is a number and no enum, since a call answers for every number.

#![tactic(auto)]

ghost use Rattle.std.specs.Prelude.{◌≡◌, false, ◌≤◌, length, drop, eqb};
ghost use Rattle.format.specs.Records as F;
ghost use Rattle.format.specs.Reader.{read_entry};
ghost use Rattle.format.specs.Places.{body_in, name_place};
ghost use Rattle.format.specs.Refusals.{numbered_at};
ghost use Rattle.kinds.specs.Kinds.{width_of, read_kind};
ghost use Rattle.answers.specs.Answers.{cleared};
ghost use Rattle.walk.specs.Walks.{start_answer, place_at, first_place, or18, walk_read, walk_answer, name_shown, place_after, StepShows};
ghost use Rattle.walk.specs.Walks as W;
ghost use Rattle.walk.specs.Sights.{Sees};

use answers::{EntryAnswer, Shown};
use entries::{Head, Text};
use format::{Fault, Refusal};

// The place of the next entry, and how many remain.
#[derive(Clone, Copy, Debug, PartialEq, Eq)]
pub struct Place {
    pub at: usize,
    pub left: u32,
}

// The next entry, and the place after it.
#[derive(Clone, Copy)]
pub struct Step {
    pub answer: Result<EntryAnswer, Fault>,
    pub next: Place,
}

// A walk: the kind and the file, the place of the next entry, and how many remain.
#[derive(Clone, Copy)]
pub struct Walk<'a> {
    pub kind: u32,
    pub file: &'a [u8],
    pub at: usize,
    pub left: u32,
}

// An entry that is seen: the bytes before its name, and its name.
#[derive(Clone, Copy)]
pub struct Sight {
    pub head: Head,
    pub name: Text,
}

// ---- the entry at a place

// Whether the header is one of version 2 or 3; w is the width of an object name and of the checksum.
fn walkable(file: &[u8], w: usize) -> bool
    requires { w ≤ 32 }
    ensures { result ≡ W.walkable w file.now }
{
    if file.len() < 12 + w {
        return false;
    }
    if !fields::same(&file[..4], b"DIRC") {
        return false;
    }
    let v = fields::read32(file, 4);
    v == 2 || v == 3
}

// The entry of version v, 2 or 3, at a place of the body b.
fn plain_at(b: &[u8], at: usize, v: u32, w: usize) -> Option<Sight>
    requires { (at ≤ length b.now) × (eqb v 4 ≡ false) × (w ≤ 32) }
    ensures { Sees w (or18 (read_entry w v F.start at (drop at b.now))) b.now at result }
{
    let head = entries::read_fixed(b, at, v, w).ok()?;
    let name = entries::read_plain(b, at + head.length, head.length, head.flags % 4096).ok()?;
    Some(Sight { head, name })
}

// The next entry of a file at a place, where some remain.
fn see(file: &[u8], at: usize, left: u32, w: usize) -> Option<Sight>
    requires { w ≤ 32 }
    ensures { Sees w (walk_read w file.now at left) (body_in w file.now) at result }
{
    if left == 0 {
        return None;
    }
    if !walkable(file, w) {
        return None;
    }
    let n = file.len() - w;
    if n < at {
        return None;
    }
    plain_at(&file[..n], at, fields::read32(file, 4), w)
}

// The next entry of a file at a place, where left remain, and the place after it, with one fewer to come. Where there is none, the entry is 18 and the
// place stays; of an unknown kind it is 29, before all else.
pub fn step_at(kind: u32, file: &[u8], at: usize, left: u32) -> Step
    ensures { StepShows (width_of kind) (name_place (width_of kind) at (body_in (width_of kind) file.now)) (walk_answer kind file.now at left) file.now (numbered_at result.answer) × (result.next ≡ place_after kind file.now at left) }
{
    let less = left.saturating_sub(1);
    if !kinds::is_known(kind) {
        return Step {
            answer: Err(Refusal::Kind.at(0)),
            next: Place { at: at, left: less },
        };
    }
    let w = kinds::width_of(kind);
    let Some(seen) = see(file, at, left, w) else {
        return Step {
            answer: Err(Refusal::NotThere.at(0)),
            next: Place { at: at, left: less },
        };
    };
    let n = file.len() - w;
    let name = at + seen.head.length;
    let end = name + seen.name.taken;
    Step {
        answer: Ok(EntryAnswer {
            shown: Shown::InFile(name, seen.name.length),
            fields: entries::record::fields_at(&file[..n], at, seen.head.flags, seen.head.word, w),
        }),
        next: Place {
            at: end,
            left: less,
        },
    }
}

// The entry alone.
pub fn entry_at(kind: u32, file: &[u8], at: usize, left: u32) -> Result<EntryAnswer, Fault>
    ensures { StepShows (width_of kind) (name_place (width_of kind) at (body_in (width_of kind) file.now)) (walk_answer kind file.now at left) file.now (numbered_at result) }
{
    step_at(kind, file, at, left).answer
}

// Its name, a part of the file.
pub fn name_at<'a>(kind: u32, file: &'a [u8], at: usize, left: u32) -> &'a [u8]
    ensures { result.now ≡ name_shown (walk_answer kind file.now at left) }
{
    match entry_at(kind, file, at, left) {
        Ok(entry) => answers::part_of(file, Ok(entry.shown)),
        Err(_) => &file[..0],
    }
}

// The place alone.
pub fn place_after(kind: u32, file: &[u8], at: usize, left: u32) -> Place
    ensures { result ≡ place_after kind file.now at left }
{
    step_at(kind, file, at, left).next
}

// ---- the start

// Whether a walk can go over a file of a kind: 19, 29 and the refusals of the file, then 4 for version 4, else how many entries there are.
pub fn start(kind: u32, file: &[u8], work: &mut [u8]) -> Result<u32, Fault>
    ensures { (numbered_at result ≡ start_answer work.old (read_kind kind file.now)) × (work.new ≡ cleared work.old) }
{
    let parts = file_read::read_cleared(file, work, kind)?;
    if parts.version == 4 {
        return Err(Refusal::Version.at(0));
    }
    Ok(parts.count)
}

// ---- the walk as one value. docs/ASSURANCE.md names these calls, and those above over a place and a number: so they are functions with those
// parameters, and no methods

// A walk before the first entry; entries is the number of all. Any kind is kept, and each step refuses an unknown one.
pub fn new<'a>(kind: u32, file: &'a [u8], entries: u32) -> Walk<'a>
    ensures { (result.kind ≡ kind) × (result.file ≡ file.entry) × (place_at result.at result.left ≡ first_place entries) }
{
    Walk {
        kind: kind,
        file: file,
        at: 12,
        left: entries,
    }
}

// The next entry; 18 where none remain, 29 of an unknown kind.
pub fn next<'a>(walk: Walk<'a>) -> Result<EntryAnswer, Fault>
    ensures { StepShows (width_of walk.entry.kind) (name_place (width_of walk.entry.kind) walk.entry.at (body_in (width_of walk.entry.kind) walk.entry.file.now)) (walk_answer walk.entry.kind walk.entry.file.now walk.entry.at walk.entry.left) walk.entry.file.now (numbered_at result) }
{
    entry_at(walk.kind, walk.file, walk.at, walk.left)
}

// The walk after the next entry.
pub fn advance<'a>(walk: Walk<'a>) -> Walk<'a>
    ensures { (result.kind ≡ walk.entry.kind) × (result.file ≡ walk.entry.file) × (place_at result.at result.left ≡ place_after walk.entry.kind walk.entry.file.now walk.entry.at walk.entry.left) }
{
    let p = place_after(walk.kind, walk.file, walk.at, walk.left);
    Walk {
        kind: walk.kind,
        file: walk.file,
        at: p.at,
        left: p.left,
    }
}

// The name of the next entry, a part of the file; none where there is no entry.
pub fn name<'a>(walk: Walk<'a>) -> &'a [u8]
    ensures { result.now ≡ name_shown (walk_answer walk.entry.kind walk.entry.file.now walk.entry.at walk.entry.left) }
{
    name_at(walk.kind, walk.file, walk.at, walk.left)
}

// How many entries remain.
pub fn remaining<'a>(walk: Walk<'a>) -> u32
    ensures { result ≡ walk.entry.left }
{
    walk.left
}
