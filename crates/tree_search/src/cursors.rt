// Cursors over lists of siblings. Names of entries rise in the index's order, so siblings in that order are asked for one after another; in Git's order
// those of one length are. A cursor is a place in a list and the number of siblings from it on; it passes no sibling twice. Each of the upper levels has
// a row of cursors for the list that is walked there: one for the index's order, and one for each length of a name. Memory is fixed, so rows are parts of
// the one array that the tree was read with, and no structs of their own. w is the width of an object name.
ghost use Rattle.std.specs.Prelude.{◌≡◌, List, true, ℕ, ◌+◌, ◌*◌, ◌≤◌, ◌<◌, length, get_or, drop};
ghost use Rattle.format.specs.Bytes.{eq_list};
ghost use Rattle.std.specs.declared.cmp.Ordering.TheVariants.{Equal};
ghost use Rattle.tree_nodes.specs.Flat.{name_of};
ghost use Rattle.tree_search.specs.Siblings.{Cursor, AnswerHolds};
ghost use Rattle.tree_search.specs.Table.{Known};
ghost use Rattle.tree_search.specs.Rows.{Moved, RowOf};

use cache_tree::orders::slash_below;
use fields::{common, find};
use std::cmp::Ordering;
use tree_nodes::passes::after_tree;
use tree_table::{Table, clear, is_of, place_of, set_list};

// Levels that have a row: few paths have more. Deeper lists are searched by a scan or a table.
const LEVELS: u32 = 16;

// Where the rows begin in the array, and how many numbers one has: two for each of its 16 cursors.
const CURSORS: usize = 2560;

const ROW: usize = 32;

// The cursors for lengths of names: all of a row but the first, which is for the index's order. Lengths with the same remainder share one.
const LENGTHS: usize = 15;

// Where the rows' lists begin in the array: for each row the place of its list, the number of siblings, and 1 where the cursors for lengths are set.
const ROW_LISTS: usize = 3078;

// The order of two names, each followed by "/". Less and Greater only choose how to search: nothing rests on them.
fn order_of(s: &[u8], t: &[u8]) -> Ordering
    ensures { result ≡ Equal → s.now ≡ t.now }
{
    let n = common(s, t);
    if s.len() <= n && t.len() <= n {
        return Ordering::Equal;
    }
    if slash_below(s, t, n) {
        return Ordering::Less;
    }
    Ordering::Greater
}

// The order of the sibling at a place and a name. By length, a sibling of another length is above it, so that the cursor for a length stays there.
fn order_at(d: &[u8], place: usize, name: &[u8], by_length: bool) -> Ordering
    requires { place ≤ length d.now }
    ensures { result ≡ Equal → eq_list name.now (name_of (drop place d.now)) ≡ true }
{
    let nul = find(d, place, 0);
    if by_length && nul - place != name.len() {
        return Ordering::Greater;
    }
    order_of(&d[place..nul], name)
}

// Whether a name was found, and where the cursor goes on. The flag is no Option of the place, which counts in both cases.
#[derive(Clone, Copy)]
struct Ahead {
    found: bool,
    place: usize,
    left: u32,
}

// From a cursor on, past the siblings that are below a name, to the first one that is not.
fn find_ahead(d: &[u8], name: &[u8], from: usize, count: u32, by_length: bool, w: usize) -> Ahead
    requires { (from ≤ length d.now) × (length d.now ≤ 16777216) }
    ensures { (result.place ≤ length d.now) × ((at k : ℕ) → Cursor w d.now at k from count → Moved w d.now at k name.now result.found result.place result.left) }
{
    let mut place = from;
    for passed in 0..count {
        let order = order_at(d, place, name, by_length);
        if order != Ordering::Less {
            return Ahead {
                found: order == Ordering::Equal,
                place,
                left: count - passed,
            };
        }
        place = after_tree(d, place, w);
    }
    Ahead {
        found: false,
        place,
        left: 0,
    }
}

// Where cursor number c of a level's row is in the array.
fn cell_of(level: usize, c: usize) -> usize
    requires { (level < 16) × (c < 16) }
    ensures { result ≡ 2560 + level * 32 + c * 2 }
{
    CURSORS + level * ROW + c * 2
}

// Where the list of a level's row is in the array.
fn list_of(level: usize) -> usize
    requires { level < 16 }
    ensures { result ≡ 3078 + level * 3 }
{
    ROW_LISTS + level * 3
}

// The number of the cursor for names of a length.
fn cursor_for(len: usize) -> usize
    ensures { result < 16 }
{
    1 + len % LENGTHS
}

// What cursor number c of a level's row says of a name. The cursor goes on to where the look ended.
fn find_by_cursor(
    d: &[u8],
    name: &[u8],
    level: usize,
    c: usize,
    by_length: bool,
    t: &mut Table,
    w: usize,
) -> Option<Option<usize>>
    requires { (c < 16) × (length d.now ≤ 16777216) × RowOf w d.now (get_or t.old (3078 + level * 3) 0) (get_or t.old (3078 + level * 3 + 1) 0) level t.old }
    ensures { (at k : ℕ) → RowOf w d.now at k level t.old → AnswerHolds w d.now at k name.now result × RowOf w d.now at k level t.new }
{
    let i = cell_of(level, c);
    let count = t[i + 1];
    if count == 0 {
        return None;
    }
    let from = place_of(t[i]);
    let ahead = find_ahead(d, name, from, count, by_length, w);
    set_list(t, i, ahead.place, ahead.left);
    if ahead.found {
        return Some(Some(ahead.place));
    }
    None
}

// The row of a level is of the k siblings at a place. If it was not, its first cursor is at the first of them, and the others are not set.
fn open_row(at: usize, k: u32, level: usize, t: &mut Table)
    requires { (level < 16) × (1 ≤ k) × (at ≤ 16777216) }
    ensures { (w : ℕ) (d : List ℕ) → at ≤ length d → Known w d t.old → RowOf w d at k level t.new }
{
    let list = list_of(level);
    if is_of(t, list, at, k) {
        return;
    }
    let row = cell_of(level, 0);
    clear(t, row, ROW);
    set_list(t, row, at, k);
    set_list(t, list, at, k);
    t[list + 2] = 0;
}

// The cursor for the length of the sibling at a place is at that sibling, if it was not set yet.
fn set_cursor(d: &[u8], place: usize, left: u32, level: usize, t: &mut Table)
    requires { (place ≤ length d.now) × (length d.now ≤ 16777216) × (level < 16) }
    ensures { (w at k : ℕ) → Cursor w d.now at k place left → RowOf w d.now at k level t.old → RowOf w d.now at k level t.new }
{
    let nul = find(d, place, 0);
    let i = cell_of(level, cursor_for(nul - place));
    if t[i + 1] == 0 {
        set_list(t, i, place, left);
    }
}

// Each cursor for lengths is at the first of the k siblings at a place that has such a length.
fn set_cursors(d: &[u8], at: usize, k: u32, level: usize, t: &mut Table, w: usize)
    requires { (length d.now ≤ 16777216) × RowOf w d.now at k level t.old }
    ensures { RowOf w d.now at k level t.new }
{
    let mut place = at;
    for passed in 0..k {
        set_cursor(d, place, k - passed, level, t);
        place = after_tree(d, place, w);
    }
    t[list_of(level) + 2] = 1;
}

// The one of k siblings at a place that has this name, by the row of a level, which is of them: where the cursors for lengths are set by these, else by the
// one for the index's order, and where that does not tell, those for lengths are set.
fn find_in_row(
    d: &[u8],
    at: usize,
    k: u32,
    name: &[u8],
    level: usize,
    t: &mut Table,
    w: usize,
) -> Option<Option<usize>>
    requires { (length d.now ≤ 16777216) × RowOf w d.now at k level t.old }
    ensures { AnswerHolds w d.now at k name.now result × Known w d.now t.new }
{
    let c = cursor_for(name.len());
    if t[list_of(level) + 2] == 1 {
        let told = find_by_cursor(d, name, level, c, true, t, w);
        if told.is_some() {
            return told;
        }
        return find_by_cursor(d, name, level, 0, false, t, w);
    }
    let next = find_by_cursor(d, name, level, 0, false, t, w);
    if next.is_some() {
        return next;
    }
    set_cursors(d, at, k, level, t, w);
    find_by_cursor(d, name, level, c, true, t, w)
}

// The one of k siblings at a place that has this name, by the cursors of their level, if that has a row and its cursors tell.
pub fn find_in_order(
    d: &[u8],
    at: usize,
    k: u32,
    name: &[u8],
    level: u32,
    t: &mut Table,
    w: usize,
) -> Option<Option<usize>>
    requires { (at ≤ length d.now) × (length d.now ≤ 16777216) × Known w d.now t.old }
    ensures { AnswerHolds w d.now at k name.now result × Known w d.now t.new }
{
    if k == 0 {
        return Some(None);
    }
    if LEVELS <= level {
        return None;
    }
    let upper = level as usize;
    open_row(at, k, upper, t);
    find_in_row(d, at, k, name, upper, t, w)
}
