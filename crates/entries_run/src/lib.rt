// One entry of any version after another, the run of all entries, and entry number k.

#![tactic(auto)]

ghost use Rattle.std.specs.Prelude.{◌≡◌, false, cond, List, ℕ, ◌+◌, ◌-◌, ◌≤◌, length, take, drop, eqb};
ghost use Rattle.format.specs.Names.{rises};
ghost use Rattle.format.specs.Reader.{read_entry};
ghost use Rattle.entries.specs.Answers.{Size};
ghost use Rattle.entries_run.specs.Steps.{name_at, key_at, cursor_of, StandingOf, NameRebuilt, Room, Inside, HeadAt, HeadRead, NumberAt, KnownBegun, StepAnswered, StepRepeated, StepTested, step_of, read_rest, EntryStepped, EntryPassed, first_cursor, RunAnswered, SeekAnswered};

use entries::Head;
use format::{Fault, Refusal};
use std::cmp::Ordering;

// The place of the next entry, and where the name of the one before is, with its stage.
#[derive(Clone, Copy)]
pub struct Cursor {
    pub at: usize,
    pub start: usize,
    pub len: usize,
    pub stage: u32,
}

// An entry: the bytes before its name, its flags, its extended word or 0, what its name and the one before have in common, and what comes next.
#[derive(Clone, Copy)]
pub struct Step {
    pub head: usize,
    pub flags: u32,
    pub word: u32,
    pub common: usize,
    pub next: Cursor,
}

// An entry that was sought, and its place.
#[derive(Clone, Copy)]
pub struct Sought {
    pub at: usize,
    pub step: Step,
}

// Whether a name may follow another, and how many bytes they have in common.
#[derive(Clone, Copy)]
pub struct Standing {
    pub rises: bool,
    pub common: usize,
}

// Before the first entry is the empty name.
pub fn first() -> Cursor
    ensures { result ≡ first_cursor }
{
    Cursor {
        at: 12,
        start: 0,
        len: 0,
        stage: 0,
    }
}

// A name of len bytes: first in the workspace in version 4, else at its start in the body.
pub fn name_at<'a>(b: &'a [u8], v: u32, work: &'a [u8], start: usize, len: usize) -> &'a [u8]
    requires { (start + len ≤ length b.now) × (len ≤ length work.now) }
    ensures { result.now ≡ name_at v b.now work.now start len }
{
    if v == 4 {
        return &work[..len];
    }
    let end = start + len;
    &b[start..end]
}

// Whether a name of stage t may follow one of stage s to which it stands as o says. After stage 0 it must differ.
fn rises(o: Ordering, s: u32, t: u32) -> bool
    ensures { result ≡ rises o s t }
{
    o.is_lt() || o.is_eq() && 0 < s && s < t
}

// Whether a name of stage t may follow the previous one, of stage s, and how many bytes the two have in common.
fn standing_of(previous: &[u8], name: &[u8], s: u32, t: u32) -> Standing
    ensures { StandingOf previous.now name.now s t result }
{
    let n = fields::common(previous, name);
    let o = fields::order_after(previous, name, n);
    Standing {
        rises: rises(o, s, t),
        common: n,
    }
}

// The entry with the bytes h before its name, which has len bytes and is at start; the next entry is at a place.
fn step_of(h: Head, common: usize, at: usize, start: usize, len: usize) -> Step
    ensures { result ≡ step_of h common at start len }
{
    Step {
        head: h.length,
        flags: h.flags,
        word: h.word,
        common: common,
        next: Cursor {
            at: at,
            start: start,
            len: len,
            stage: h.flags / 4096 % 4,
        },
    }
}

// In the name in the first p bytes of the workspace, the last n are replaced by suffix. The two names are compared before the copy.
fn rebuild(work: &mut [u8], p: usize, n: usize, suffix: &[u8], s: u32, t: u32) -> Standing
    requires { (n ≤ p) × (p ≤ 8192) × (p - n + length suffix.now ≤ 8192) × (8192 ≤ length work.old) }
    ensures { NameRebuilt work.old p n suffix.now s t work.new result }
{
    let kept = p - n;
    let d = standing_of(&work[kept..p], suffix, s, t);
    fields::copy_to(work, kept, suffix);
    Standing {
        rises: d.rises,
        common: kept + d.common,
    }
}

// The rest of an entry of version 4 after the number N, which is n and took that many bytes. One that was read before is not tested again.
fn suffix(
    b: &[u8],
    work: &mut [u8],
    c: Cursor,
    h: Head,
    n: usize,
    took: usize,
    again: bool,
    known: bool,
) -> Result<Step, Refusal>
    requires { NumberAt b.now work.old c h n took × KnownBegun known (take c.len work.old) }
    ensures { (w : ℕ) → Size w (drop c.at b.now) h → StepTested w again (read_rest w 4 b.now work.old c h) 4 b.now work.old c work.new result }
{
    let at = c.at + h.length + took;
    let z = fields::find(b, at, 0);
    if z == b.len() {
        return Err(Refusal::EntryCut);
    }
    let len = c.len - n + (z - at);
    if fields::LONGEST < len {
        return Err(Refusal::EntryName);
    }
    let stage = h.flags / 4096 % 4;
    let d = rebuild(&mut *work, c.len, n, &b[at..z], c.stage, stage);
    if again {
        return Ok(step_of(h, d.common, z + 1, 0, len));
    }
    let kept = if known { c.len - n } else { 0 };
    if !fields::name_ok_after(&work[..len], kept) {
        return Err(Refusal::EntryName);
    }
    if h.flags % 4096 != fields::length_field(len) {
        return Err(Refusal::EntryName);
    }
    if !d.rises {
        return Err(Refusal::EntryOrder);
    }
    Ok(step_of(h, d.common, z + 1, 0, len))
}

// The rest of an entry of version 4 after the bytes h. One that was read before is not tested again.
fn packed(
    b: &[u8],
    work: &mut [u8],
    c: Cursor,
    h: Head,
    again: bool,
    known: bool,
) -> Result<Step, Refusal>
    requires { HeadAt b.now c h × (8192 ≤ length work.old) × KnownBegun known (take c.len work.old) }
    ensures { (w : ℕ) → Size w (drop c.at b.now) h → StepTested w again (read_rest w 4 b.now work.old c h) 4 b.now work.old c work.new result }
{
    let m = entries::read_n(b, c.at + h.length, c.len)?;
    suffix(b, work, c, h, m.value, m.taken, again, known)
}

// The rest of an entry of version 2 or 3 after the bytes h.
fn plain(b: &[u8], c: Cursor, h: Head, known: bool) -> Result<Step, Refusal>
    requires { HeadAt b.now c h × KnownBegun known (take c.len (drop c.start b.now)) }
    ensures { (w v : ℕ) (work : List ℕ) → Size w (drop c.at b.now) h → eqb v 4 ≡ false → StepAnswered w (read_rest w v b.now work c h) v b.now work c work result }
{
    let at = c.at + h.length;
    let field = h.flags % 4096;
    let n = entries::plain_length(b, at, field);
    if b.len() - at <= n {
        return Err(Refusal::EntryCut);
    }
    let a = c.start;
    let e = a + c.len;
    let z = at + n;
    let stage = h.flags / 4096 % 4;
    let d = standing_of(&b[a..e], &b[at..z], c.stage, stage);
    let kept = if known { d.common } else { 0 };
    let t = entries::read_named(b, at, n, h.length, field, kept)?;
    if !d.rises {
        return Err(Refusal::EntryOrder);
    }
    Ok(step_of(h, d.common, at + t.taken, at, t.length))
}

// The same of an entry that was read before.
fn pass_plain(b: &[u8], c: Cursor, h: Head) -> Result<Step, Refusal>
    requires { HeadAt b.now c h }
    ensures { (w v : ℕ) (work : List ℕ) → Size w (drop c.at b.now) h → eqb v 4 ≡ false → StepRepeated w (read_rest w v b.now work c h) v b.now work c work result }
{
    let at = c.at + h.length;
    let t = entries::pass_plain(b, at, h.length, h.flags % 4096)?;
    let a = c.start;
    let e = a + c.len;
    let z = at + t.length;
    let k = fields::common(&b[a..e], &b[at..z]);
    Ok(step_of(h, k, at + t.taken, at, t.length))
}

// The bytes before the name of the entry at a place. Those that were read before are not tested again.
fn head_at(b: &[u8], at: usize, v: u32, again: bool, w: usize) -> Result<Head, Refusal>
    requires { (at ≤ length b.now) × (w ≤ 32) }
    ensures { HeadRead w again v b.now at result }
{
    if again {
        return entries::pass_fixed(b, at, w);
    }
    entries::read_fixed(b, at, v, w)
}

// The entry at the cursor that these numbers make. The mode, the name, the order and the NULs after the name of one that was read before are not tested
// again; known says that the name before the cursor is sound. Numbers are handed on here, and not a struct, because this is called for every entry.
// The two flags only leave tests out: as closures, the tests of the mode, the name and the order would go down through four functions.
fn entry_at(
    b: &[u8],
    v: u32,
    work: &mut [u8],
    at: usize,
    start: usize,
    len: usize,
    stage: u32,
    again: bool,
    known: bool,
    w: usize,
) -> Result<Step, Refusal>
    requires { Inside b.now (cursor_of at start len stage) × (8192 ≤ length work.old) × KnownBegun known (name_at v b.now work.old start len) × (w ≤ 32) }
    ensures { StepTested w again (λ p. read_entry w v (key_at v b.now work.old (cursor_of at start len stage)) p (drop at b.now)) v b.now work.old (cursor_of at start len stage) work.new result }
{
    let h = head_at(b, at, v, again, w)?;
    let c = Cursor {
        at: at,
        start: start,
        len: len,
        stage: stage,
    };
    if v == 4 {
        return packed(b, work, c, h, again, known);
    }
    if again {
        return pass_plain(b, c, h);
    }
    plain(b, c, h, known)
}

// The entry at a cursor; w is the width of an object name.
pub fn next_entry(b: &[u8], v: u32, work: &mut [u8], c: Cursor, w: usize) -> Result<Step, Refusal>
    requires { Inside b.now c × (8192 ≤ length work.old) × (w ≤ 32) }
    ensures { EntryStepped w v b.now work.old c work.new result }
{
    entry_at(b, v, work, c.at, c.start, c.len, c.stage, false, false, w)
}

// The entry at a cursor, where one was read before.
pub fn pass_entry(b: &[u8], v: u32, work: &mut [u8], c: Cursor, w: usize) -> Result<Step, Refusal>
    requires { Inside b.now c × (8192 ≤ length work.old) × (w ≤ 32) }
    ensures { EntryPassed w v b.now work.old c work.new result }
{
    entry_at(b, v, work, c.at, c.start, c.len, c.stage, true, false, w)
}

// The run of entries of a body: count of them, from its 12th byte on.
pub fn run_entries(b: &[u8], v: u32, work: &mut [u8], count: u32, w: usize) -> Result<usize, Fault>
    requires { Room b.now work.old × (w ≤ 32) }
    ensures { RunAnswered w v b.now work.old count work.new result }
{
    let mut at: usize = 12;
    let mut start: usize = 0;
    let mut len: usize = 0;
    let mut stage: u32 = 0;
    for _ in 0..count {
        let read = entry_at(b, v, &mut *work, at, start, len, stage, false, true, w);
        let st = read.map_err(|e| e.at(at))?;
        at = st.next.at;
        start = st.next.start;
        len = st.next.len;
        stage = st.next.stage;
    }
    Ok(at)
}

// Entry number k of a body. Every entry before it is read: an entry's place and, in version 4, its name depend on them.
pub fn seek_entry(b: &[u8], v: u32, work: &mut [u8], k: u32, w: usize) -> Result<Sought, Fault>
    requires { Room b.now work.old × (w ≤ 32) }
    ensures { SeekAnswered w v b.now work.old k work.new result }
{
    let mut c = first();
    for _ in 0..k {
        let st = next_entry(b, v, &mut *work, c, w).map_err(|e| e.at(c.at))?;
        c = st.next;
    }
    let step = next_entry(b, v, &mut *work, c, w).map_err(|e| e.at(c.at))?;
    Ok(Sought {
        at: c.at,
        step: step,
    })
}
