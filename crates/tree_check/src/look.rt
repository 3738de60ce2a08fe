// The first entry ahead in a directory: its next component, and the sibling of that name.
ghost use Rattle.std.specs.Prelude.{◌≡◌, ◌≤◌, length};
ghost use Rattle.entries_run.specs.Steps.{name_at};
ghost use Rattle.tree_search.specs.Siblings.{AnswerHolds, Finds};
ghost use Rattle.tree_search.specs.Table.{Known};
ghost use Rattle.entries_directory.specs.Ahead.{FrontFits};
ghost use Rattle.tree_check.specs.Components.{LookedUp};

use crate::gather::gather;
use entries_directory::Front;
use entries_run::name_at;
use fields::find;
use tree_search::child::{is_longer, scan};
use tree_search::cursors::find_in_order;
use tree_search::table::{Region, begin, find_in_table, put_places};
use tree_table::Table;

// A list of at most this many bytes is scanned: a look at all of it costs less than to make a table.
const SHORT: usize = 4096;

// A list of more than this many bytes has the table for long lists: on one level a file of 16 MiB has at most 128 of them, so this is not made often.
const LONG: usize = 131072;

// The directory below that a name is in: the place in the name after its "/", and where its node is, if it has one.
#[derive(Clone, Copy)]
pub struct Subdirectory {
    pub end: usize,
    pub node: Option<usize>,
}

// The one of k siblings at a place that has this name, by a table that is made for it and the names ahead.
fn find_by_table(
    d: &[u8],
    at: usize,
    k: u32,
    name: &[u8],
    b: &[u8],
    v: u32,
    work: &[u8],
    q: usize,
    s: Front,
    region: Region,
    t: &mut Table,
    w: usize,
) -> Option<usize>
    requires { (at ≤ length d.now) × (length d.now ≤ 16777216) × FrontFits b.now s × (8192 ≤ length work.now) × (q ≤ s.cursor.len) × Known w d.now t.old × (w ≤ 32) }
    ensures { Finds w d.now at k name.now result × Known w d.now t.new }
{
    begin(d, region, t, w);
    gather(b, v, work, q, s, region, t, w);
    put_places(d, at, k, region, t, w);
    if let Some(child) = find_in_table(d, at, k, name, region, t, w) {
        return child;
    }
    scan(d, at, k, name, w)
}

// The same by the cursors of the level and by the tables as they are.
fn find_soon(
    d: &[u8],
    at: usize,
    k: u32,
    name: &[u8],
    level: u32,
    t: &mut Table,
    w: usize,
) -> Option<Option<usize>>
    requires { (at ≤ length d.now) × (length d.now ≤ 16777216) × Known w d.now t.old }
    ensures { AnswerHolds w d.now at k name.now result × Known w d.now t.new }
{
    let next = find_in_order(d, at, k, name, level, t, w);
    if next.is_some() {
        return next;
    }
    let short = find_in_table(d, at, k, name, Region::Short, t, w);
    if short.is_some() {
        return short;
    }
    find_in_table(d, at, k, name, Region::Long, t, w)
}

// The one of k siblings on a level that has this name, the next component of the first name ahead: by what is known of them, else by a scan of a short list
// or a table of a long one.
fn find_child(
    d: &[u8],
    at: usize,
    k: u32,
    name: &[u8],
    level: u32,
    b: &[u8],
    v: u32,
    work: &[u8],
    q: usize,
    s: Front,
    t: &mut Table,
    w: usize,
) -> Option<usize>
    requires { (at ≤ length d.now) × (length d.now ≤ 16777216) × FrontFits b.now s × (8192 ≤ length work.now) × (q ≤ s.cursor.len) × Known w d.now t.old × (w ≤ 32) }
    ensures { Finds w d.now at k name.now result × Known w d.now t.new }
{
    if let Some(child) = find_soon(d, at, k, name, level, t, w) {
        return child;
    }
    if !is_longer(d, at, k, SHORT, w) {
        return scan(d, at, k, name, w);
    }
    // Two calls, not one with a chosen region: the body of a function that is called at one place is put there, and its 8 KiB for a name would join the
    // callers' frames.
    if is_longer(d, at, k, LONG, w) {
        return find_by_table(d, at, k, name, b, v, work, q, s, Region::Long, t, w);
    }
    find_by_table(d, at, k, name, b, v, work, q, s, Region::Short, t, w)
}

// The directory below that the first name ahead is in after its first q bytes, if it has a further "/", among k siblings on a level. What the array t holds is
// kept.
pub fn look_up<'a>(
    d: &[u8],
    at: usize,
    k: u32,
    level: u32,
    b: &'a [u8],
    v: u32,
    work: &'a [u8],
    q: usize,
    s: Front,
    t: &mut Table,
    w: usize,
) -> Option<Subdirectory>
    requires { (at ≤ length d.now) × (length d.now ≤ 16777216) × FrontFits b.now s × (8192 ≤ length work.now) × (q ≤ s.cursor.len) × Known w d.now t.old × (w ≤ 32) }
    ensures { LookedUp w d.now at k (name_at v b.now work.now s.cursor.start s.cursor.len) s.cursor.len q result × Known w d.now t.new }
{
    let name = name_at(b, v, work, s.cursor.start, s.cursor.len);
    let e = find(name, q, b'/');
    if e == name.len() {
        return None;
    }
    let node = find_child(d, at, k, &name[q..e], level, b, v, work, q, s, t, w);
    Some(Subdirectory { end: e + 1, node })
}
