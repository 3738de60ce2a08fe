// The names ahead in a directory: the keys of their next components are put in a table. What a table says does not depend on which keys are in it.
ghost use Rattle.std.specs.Prelude.{◌≤◌, ◌<◌, length};
ghost use Rattle.tree_search.specs.Table.{Vacant};
ghost use Rattle.entries_directory.specs.Ahead.{FrontFits};
ghost use Rattle.tree_check.specs.Keys.{KeysPut};

use entries_directory::{Front, advance, stays};
use entries_run::name_at;
use fields::{copy_to, find};
use tree_search::table::{Region, put_key};
use tree_table::{Table, key_of};

// How many names ahead are looked at: more than a table takes keys, since names in one directory are one after another and have one key.
const AHEAD: u32 = 4096;

// The key of the component of a name after its first q bytes is put in a table, if a "/" ends it and the name before has not the same; the two names have
// their first common bytes in common. How many keys were added.
fn put_component(name: &[u8], q: usize, common: usize, region: Region, t: &mut Table) -> u32
    requires { (q ≤ length name.now) × Vacant region t.old }
    ensures { (result < 2) × KeysPut region t.old t.new }
{
    let e = find(name, q, b'/');
    if e == name.len() || e < common {
        return 0;
    }
    let key = key_of(&name[q..e], t);
    put_key(region, key, t)
}

// That of the first name ahead.
fn put_first<'a>(
    b: &'a [u8],
    v: u32,
    work: &'a [u8],
    q: usize,
    s: Front,
    region: Region,
    t: &mut Table,
) -> u32
    requires { FrontFits b.now s × (8192 ≤ length work.now) × (q ≤ s.cursor.len) × Vacant region t.old }
    ensures { (result < 2) × KeysPut region t.old t.new }
{
    let name = name_at(b, v, work, s.cursor.start, s.cursor.len);
    put_component(name, q, s.common, region, t)
}

// Those of the names ahead that begin with the same q bytes. names is a workspace with the first name.
fn put_ahead(
    b: &[u8],
    v: u32,
    names: &mut [u8],
    q: usize,
    s: Front,
    region: Region,
    t: &mut Table,
    w: usize,
)
    requires { FrontFits b.now s × (8192 ≤ length names.old) × (q ≤ s.cursor.len) × Vacant region t.old × (w ≤ 32) }
    ensures { KeysPut region t.old t.new }
{
    let mut front = s;
    let mut count: u32 = 0;
    for _ in 0..AHEAD {
        count += put_first(b, v, &names[..], q, front, region, t);
        if region.most_keys() <= count {
            return;
        }
        front = advance(b, v, names, front, w);
        if !stays(front, q) {
            return;
        }
    }
}

// The same, with the first name copied to names: a function of its own, so that no proof counts the elements of a long local array.
fn put_copied(
    b: &[u8],
    v: u32,
    work: &[u8],
    names: &mut [u8; 8192],
    q: usize,
    s: Front,
    region: Region,
    t: &mut Table,
    w: usize,
)
    requires { FrontFits b.now s × (8192 ≤ length work.now) × (q ≤ s.cursor.len) × Vacant region t.old × (w ≤ 32) }
    ensures { KeysPut region t.old t.new }
{
    let len = s.cursor.len;
    copy_to(names, 0, &work[..len]);
    put_ahead(b, v, names, q, s, region, t, w);
}

// The keys of the next components of the names ahead that begin with the same q bytes are put in a table that is of no list.
pub fn gather(
    b: &[u8],
    v: u32,
    work: &[u8],
    q: usize,
    s: Front,
    region: Region,
    t: &mut Table,
    w: usize,
)
    requires { FrontFits b.now s × (8192 ≤ length work.now) × (q ≤ s.cursor.len) × Vacant region t.old × (w ≤ 32) }
    ensures { KeysPut region t.old t.new }
{
    let mut names = [0u8; 8192];
    put_copied(b, v, work, &mut names, q, s, region, t, w);
}
