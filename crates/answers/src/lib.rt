// What the calls on an index answer, where they refuse nothing: the types, the fields of an entry, the names that answers point at. The calls are in
// crate index.

#![tactic(auto)]

ghost use Rattle.std.specs.Prelude.{◌≡◌, [], ◌+◌};
ghost use Rattle.format.specs.Refusals.{numbered_at};
ghost use Rattle.answers.specs.Answers.{part_in, name_told};

use entries::record::Fields;
use format::Fault;

// What the last bytes of a file are: the hash of all before, zeros in its place, or neither.
#[derive(Clone, Copy, Debug, PartialEq, Eq)]
pub enum Checksum {
    Matches,
    LeftOut,
    Wrong,
}

// What check tells of an accepted file; end is the byte where entries end, nodes and records are their number, where the file has the extension. The
// checksum is not wrong.
#[derive(Clone, Copy, Debug, PartialEq, Eq)]
pub struct Summary {
    pub version: u32,
    pub entries: u32,
    pub end: usize,
    pub nodes: Option<u32>,
    pub records: Option<u32>,
    pub checksum: Checksum,
}

// Where the name of what is shown is: its place and length in the file, or its length in the workspace, from the workspace's start.
#[derive(Clone, Copy, Debug, PartialEq, Eq)]
pub enum Shown {
    InFile(usize, usize),
    InWorkspace(usize),
}

// An entry: where its name is, and its fields.
#[derive(Clone, Copy)]
pub struct EntryAnswer {
    pub shown: Shown,
    pub fields: Fields,
}

// A tree node: its level, its entry count where that is valid, its number of subtrees, its object name, zeros where the count is invalid. An object
// name has 32 bytes of room: a shorter one is first, zeros follow.
#[derive(Clone, Copy)]
pub struct NodeAnswer {
    pub shown: Shown,
    pub level: u32,
    pub count: Option<u32>,
    pub subtrees: u32,
    pub object: [u8; 32],
}

// A resolve-undo record: the modes of stages 1 to 3, 0 where the stage is missing, and their object names, zeros where it is missing.
#[derive(Clone, Copy)]
pub struct UndoAnswer {
    pub shown: Shown,
    pub first_mode: u32,
    pub second_mode: u32,
    pub third_mode: u32,
    pub first: [u8; 32],
    pub second: [u8; 32],
    pub third: [u8; 32],
}

// ---- names

// The n bytes at a place, or none where they are not all there.
fn part<'a>(s: &'a [u8], at: usize, n: usize) -> &'a [u8]
    ensures { result.now ≡ part_in at n s.now }
{
    if s.len() < at {
        return &s[..0];
    }
    if s.len() - at < n {
        return &s[..0];
    }
    let e = at + n;
    &s[at..e]
}

// The name that an answer points at: a part of the file or of the workspace. A refusal has none.
pub fn name_of<'a>(file: &'a [u8], work: &'a [u8], shown: Result<Shown, Fault>) -> &'a [u8]
    ensures { result.now ≡ name_told (numbered_at shown) file.now work.now }
{
    let Ok(name) = shown else {
        return &file[..0];
    };
    match name {
        Shown::InFile(at, n) => part(file, at, n),
        Shown::InWorkspace(n) => part(work, 0, n),
    }
}

// The name of a tree node or the path of a resolve-undo record: always a part of the file.
pub fn part_of<'a>(file: &'a [u8], shown: Result<Shown, Fault>) -> &'a [u8]
    ensures { result.now ≡ name_told (numbered_at shown) file.now [] }
{
    name_of(file, &file[..0], shown)
}
