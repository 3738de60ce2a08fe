// Whether siblings in no order differ in name: chunk by chunk, each chunk's keys in a table in which the later ones are looked up. w is
// the width of an object name.
ghost use Rattle.std.specs.Prelude.{◌≡◌, true, false, ◌-◌, ◌≤◌, ◌<◌, length, drop};
ghost use Rattle.format.specs.Bytes.{eq_list};
ghost use Rattle.tree_nodes.specs.Flat.{name_of, names_of, has_name, names_differ, EndsAt};
ghost use Rattle.tree_table.specs.Keys.{key_in};
ghost use Rattle.cache_tree.specs.Chunks.{put_in, all_held, apart, Filled};

use fields::{find, same};
use tree_nodes::passes::{after_tree, sibling_at};
use tree_table::{KEYS, Table, clear, key_of, make_seed, slot_of};

// Names of a chunk: more than four fifths of the slots, where a search for a slot ends after some six of them.
const CHUNK: u32 = 2600;

// Whether the names at a and at b are equal.
fn same_at(d: &[u8], a: usize, b: usize) -> bool
    requires { (a ≤ length d.now) × (b ≤ length d.now) }
    ensures { result ≡ eq_list (name_of (drop a d.now)) (name_of (drop b d.now)) }
{
    let x = find(d, a, 0);
    let y = find(d, b, 0);
    same(&d[a..x], &d[b..y])
}

// Whether the name at a is among the k from b on.
fn has_name(d: &[u8], a: usize, b: usize, k: u32, w: usize) -> bool
    requires { (a ≤ length d.now) × (b ≤ length d.now) × (length d.now ≤ 16777216) }
    ensures { result ≡ has_name (name_of (drop a d.now)) (names_of w k (drop b d.now)) }
{
    let mut y = b;
    for _ in 0..k {
        if same_at(d, a, y) {
            return true;
        }
        y = after_tree(d, y, w);
    }
    false
}

// The key of the name at a place, which ends at nul.
pub fn key_at(d: &[u8], y: usize, nul: usize, t: &Table) -> u32
    requires { EndsAt d.now y nul }
    ensures { result ≡ key_in t.now (name_of (drop y d.now)) }
{
    key_of(&d[y..nul], t)
}

// Whether the name at y, which ends at nul, is among the n from a on, whose keys are in the table. An empty slot says that it is not; one that is taken
// may have another name's key.
fn is_known(d: &[u8], y: usize, nul: usize, a: usize, n: u32, t: &Table, w: usize) -> bool
    requires { EndsAt d.now y nul × (y ≤ length d.now) × (a ≤ length d.now) × (length d.now ≤ 16777216) × (all_held t.now (names_of w n (drop a d.now)) ≡ true) }
    ensures { result ≡ has_name (name_of (drop y d.now)) (names_of w n (drop a d.now)) }
{
    let slot = slot_of(t, 0, KEYS, key_at(d, y, nul, t));
    if t[slot] == 0 {
        return false;
    }
    has_name(d, y, a, n, w)
}

// The same, and the name's own key is put in the table.
fn put(d: &[u8], y: usize, nul: usize, a: usize, n: u32, t: &mut Table, w: usize) -> bool
    requires { EndsAt d.now y nul × (y ≤ length d.now) × (a ≤ length d.now) × (length d.now ≤ 16777216) × (all_held t.old (names_of w n (drop a d.now)) ≡ true) }
    ensures { (result ≡ has_name (name_of (drop y d.now)) (names_of w n (drop a d.now))) × (t.new ≡ put_in t.old (name_of (drop y d.now))) }
{
    let key = key_at(d, y, nul, t);
    let slot = slot_of(t, 0, KEYS, key);
    if t[slot] == 0 {
        t[slot] = key;
        return false;
    }
    has_name(d, y, a, n, w)
}

// The keys of the k names from a on are put in the table: the place after them; none where two of these names are equal.
fn fill(d: &[u8], a: usize, k: u32, t: &mut Table, w: usize) -> Option<usize>
    requires { (a ≤ length d.now) × (length d.now ≤ 16777216) × (length t.old ≡ 3126) }
    ensures { (length t.new ≡ 3126) × Filled w d.now a k t.new result }
{
    let mut y = a;
    for n in 0..k {
        let sibling = sibling_at(d, y, w);
        if put(d, y, sibling.nul, a, n, t, w) {
            return None;
        }
        y = sibling.next;
    }
    Some(y)
}

// Whether none of the k names from b on is among the n from a on, whose keys are in the table.
fn against(d: &[u8], a: usize, n: u32, b: usize, k: u32, t: &Table, w: usize) -> bool
    requires { (b ≤ length d.now) × (a ≤ length d.now) × (length d.now ≤ 16777216) × (all_held t.now (names_of w n (drop a d.now)) ≡ true) }
    ensures { result ≡ apart (names_of w n (drop a d.now)) (names_of w k (drop b d.now)) }
{
    let mut y = b;
    for _ in 0..k {
        let sibling = sibling_at(d, y, w);
        if is_known(d, y, sibling.nul, a, n, t, w) {
            return false;
        }
        y = sibling.next;
    }
    true
}

// Whether the k names from a on differ.
pub fn differ(d: &[u8], a: usize, k: u32, t: &mut Table, w: usize) -> bool
    requires { (a ≤ length d.now) × (length d.now ≤ 16777216) × (length t.old ≡ 3126) }
    ensures { (result ≡ names_differ (names_of w k (drop a d.now))) × (length t.new ≡ 3126) }
{
    make_seed(d, t);
    let mut x = a;
    let mut left = k;
    // No count by one: a chunk at a time, and each begins where the one before ended.
    while 0 < left {
        let n = left.min(CHUNK);
        clear(t, 0, KEYS);
        let Some(y) = fill(d, x, n, t, w) else {
            return false;
        };
        if against(d, x, n, y, left - n, t, w) {
            x = y;
            left -= n;
        } else {
            return false;
        }
    }
    true
}
