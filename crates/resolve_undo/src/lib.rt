// The resolve-undo records of an index: the data of its REUC extension, read. w is the width of an object name.

#![tactic(auto)]

ghost use Rattle.std.specs.Prelude.{◌≡◌, [], ◌&&◌, ℕ, ◌+◌, ◌≤◌, length, take, drop, IfSome};
ghost use Rattle.format.specs.Names as Names;
ghost use Rattle.format.specs.Reader.{mode_in, read_mode, read_stages, read_undo, read_undos};
ghost use Rattle.format.specs.Places.{undo_start};
ghost use Rattle.resolve_undo.specs.Answers.{mode_found, mode_read, ModeWithin, object_length, object_in, read_modes, record_read, RecordWithin, RestRead, records_read, undo_at, stage_shown, shown};

use std::cmp::Ordering;

// A record: the length of its path, the modes of its stages, the place of the first object name, the place after the record.
#[derive(Clone, Copy)]
pub struct Record {
    pub path: usize,
    pub first: u32,
    pub second: u32,
    pub third: u32,
    pub objects: usize,
    pub next: usize,
}

// A stage as it is shown. Where it is missing, its mode and its object name are zeros. An object name has 32 bytes of room: a
// shorter one is first, zeros follow.
#[derive(Clone, Copy)]
pub struct Stage {
    pub mode: u32,
    pub object: [u8; 32],
}

// A record as it is shown: the place and the length of its path, and its stages.
#[derive(Clone, Copy)]
pub struct Shown {
    pub path: usize,
    pub path_length: usize,
    pub first: Stage,
    pub second: Stage,
    pub third: Stage,
}

// The mode of a text, if it is one of the five.
#[tactic(auto, unfolding(format::specs::Reader::mode_in, format::specs::Layout::mode_text))]
fn mode_in(t: &[u8]) -> Option<u32>
    ensures { result ≡ mode_found (mode_in t.now) }
{
    if fields::same(t, b"0") {
        return Some(0);
    }
    if fields::same(t, b"100644") {
        return Some(0x81a4);
    }
    if fields::same(t, b"100755") {
        return Some(0x81ed);
    }
    if fields::same(t, b"120000") {
        return Some(0xa000);
    }
    if fields::same(t, b"160000") {
        return Some(0xe000);
    }
    None
}

// The mode whose text begins at the place at, and the place after it.
pub fn read_mode(d: &[u8], at: usize) -> Option<(u32, usize)>
    requires { at ≤ length d.now }
    ensures { ((p : ℕ) → result ≡ mode_read at (read_mode p (drop at d.now))) × ModeWithin at (length d.now) result }
{
    let e = fields::find(d, at, 0);
    if e == d.len() {
        return None;
    }
    let mode = mode_in(&d[at..e])?;
    Some((mode, e + 1))
}

// Whether path is a valid name and comes after previous.
fn path_ok(path: &[u8], previous: &[u8]) -> bool
    ensures { result ≡ (Names.ok_name path.now && Names.is_below (Names.compare previous.now path.now)) }
{
    fields::name_ok(path) && fields::compare(previous, path) == Ordering::Less
}

// The number of bytes of a stage's object name: none where the stage is missing.
#[tactic(auto, unfolding(crate::specs::Answers::object_length))]
fn object_length(mode: u32, w: usize) -> usize
    ensures { (result ≡ object_length w mode) × (result ≤ w) }
{
    if mode == 0 {
        return 0;
    }
    w
}

// The rest of a record after its path, of size bytes, and its three modes: the object names at the place at.
fn read_stages(
    d: &[u8],
    at: usize,
    size: usize,
    first: u32,
    second: u32,
    third: u32,
    w: usize,
) -> Option<Record>
    requires { (at ≤ length d.now) × (1 ≤ w) × (w ≤ 32) }
    ensures { RestRead w at size d.now (λ p path. read_stages w p path first second third) result }
{
    let n = object_length(first, w) + object_length(second, w) + object_length(third, w);
    if n == 0 {
        return None;
    }
    if d.len() - at < n {
        return None;
    }
    Some(Record {
        path: size,
        first,
        second,
        third,
        objects: at,
        next: at + n,
    })
}

// The rest of a record after its path, of size bytes: the three modes from the place at on, and then the object names.
fn read_modes(d: &[u8], at: usize, size: usize, w: usize) -> Option<Record>
    requires { (at ≤ length d.now) × (1 ≤ w) × (w ≤ 32) }
    ensures { RestRead w at size d.now (λ p path. read_modes w p path) result }
{
    let (first, second_at) = read_mode(d, at)?;
    let (second, third_at) = read_mode(d, second_at)?;
    let (third, objects) = read_mode(d, third_at)?;
    read_stages(d, objects, size, first, second, third, w)
}

// The record at the place at. The path of the record before it is the size bytes at the place prior.
pub fn read_undo(d: &[u8], at: usize, prior: usize, size: usize, w: usize) -> Option<Record>
    requires { (at ≤ length d.now) × (prior + size ≤ length d.now) × (1 ≤ w) × (w ≤ 32) }
    ensures { ((p : ℕ) → result ≡ record_read w at (read_undo w p (take size (drop prior d.now)) (drop at d.now))) × RecordWithin at (length d.now) result }
{
    let e = fields::find(d, at, 0);
    if e == d.len() {
        return None;
    }
    if path_ok(&d[at..e], &d[prior..prior + size]) {
        return read_modes(d, e + 1, e - at, w);
    }
    None
}

// The number of records in the data, where all of them are read.
pub fn read_undos(d: &[u8], w: usize) -> Option<u32>
    requires { (length d.now ≤ 16777216) × (1 ≤ w) × (w ≤ 32) }
    ensures { (p : ℕ) → result ≡ records_read (read_undos w p (length d.now) [] d.now) }
{
    let mut at: usize = 0;
    let mut prior: usize = 0;
    let mut size: usize = 0;
    let mut records: u32 = 0;
    // No count: each record says where the next one begins.
    while at < d.len() {
        let r = read_undo(d, at, prior, size, w)?;
        prior = at;
        size = r.path;
        at = r.next;
        records += 1;
    }
    Some(records)
}

// The place of record k, counted from 0. Where a record before it is refused, the place of that one.
pub fn find_undo(d: &[u8], k: u32, w: usize) -> usize
    requires { (1 ≤ w) × (w ≤ 32) }
    ensures { result ≡ undo_start w 0 k [] d.now }
{
    let mut at: usize = 0;
    let mut prior: usize = 0;
    let mut size: usize = 0;
    for _i in 0..k {
        let Some(r) = read_undo(d, at, prior, size, w) else {
            return at;
        };
        prior = at;
        size = r.path;
        at = r.next;
    }
    at
}

// A stage, as it is shown. Its object name, where it is there, is at the place at.
fn show_stage(d: &[u8], at: usize, mode: u32, w: usize) -> Stage
    requires { (at + object_length w mode ≤ length d.now) × (w ≤ 32) }
    ensures { result ≡ stage_shown mode (object_in w mode (drop at d.now)) }
{
    if mode == 0 {
        return Stage {
            mode,
            object: [0u8; 32],
        };
    }
    let object = entries::record::object_at(d, at, w);
    Stage { mode, object }
}

// The record at a place, whatever the path of the record before it. Its path is a part of the data.
pub fn show_undo(d: &[u8], place: usize, w: usize) -> Option<Shown>
    requires { (1 ≤ w) × (w ≤ 32) }
    ensures { ((p : ℕ) → result ≡ shown place (undo_at w p (drop place d.now))) × IfSome result (λ s. s.path + s.path_length ≤ length d.now) }
{
    if d.len() < place {
        return None;
    }
    let r = read_undo(d, place, 0, 0, w)?;
    let second = r.objects + object_length(r.first, w);
    let third = second + object_length(r.second, w);
    Some(Shown {
        path: place,
        path_length: r.path,
        first: show_stage(d, r.objects, r.first, w),
        second: show_stage(d, second, r.second, w),
        third: show_stage(d, third, r.third, w),
    })
}
