// Two tables, each of some siblings of a list: of those whose keys are in it, one pass over the list puts down where each is. Memory is fixed, so they are
// parts of the one array that the tree was read with, and no structs or enums of their own. w is the width of an object name.
ghost use Rattle.std.specs.Prelude.{◌≡◌, List, ℕ, ◌≤◌, ◌<◌, length};
ghost use Rattle.tree_nodes.specs.Flat.{EndsAt};
ghost use Rattle.tree_search.specs.Siblings.{AnswerHolds};
ghost use Rattle.tree_search.specs.Table.{Known, Vacant, with_place, first_slot, slots_of, list_of};
ghost use Rattle.tree_search.specs.declared.table.Region.{Region};

use crate::child::is_named;
use cache_tree::differ::key_at;
use tree_nodes::passes::sibling_at;
use tree_table::{Table, clear, has_seed, is_of, key_of, make_seed, place_of, set_list, slot_of};

// Which of the two. Many shorter lists may be below a long one: they have a table of their own, so that they don't make the long one's begin anew.
#[derive(Clone, Copy)]
pub enum Region {
    Short,
    Long,
}

// Where the keys of each table begin. After its keys are as many numbers, which say for each slot where the sibling is: 0 for none, 1 for several, else 2
// more than the place of one.
const SHORT_KEYS: usize = 0;

const LONG_KEYS: usize = 1024;

// How many slots each table has. A pass over a long list costs more, so its table takes more keys.
const SHORT_SLOTS: usize = 512;

const LONG_SLOTS: usize = 768;

// The first of the numbers that say which lists the tables and the rows of cursors are of, and how many these are.
const LISTS: usize = 3074;

const LIST_NUMBERS: usize = 52;

// Where the list of each table is: its place, then its number of siblings, 0 where there is none.
const SHORT_LIST: usize = LISTS;

const LONG_LIST: usize = LISTS + 2;

impl Region {
    fn first_slot(self) -> usize
        ensures { (result ≡ first_slot self) × (result ≤ 1024) }
    {
        match self {
            Region::Short => SHORT_KEYS,
            Region::Long => LONG_KEYS,
        }
    }

    fn slots(self) -> usize
        ensures { (result ≡ slots_of self) × (512 ≤ result) × (result ≤ 1024) }
    {
        match self {
            Region::Short => SHORT_SLOTS,
            Region::Long => LONG_SLOTS,
        }
    }

    fn list(self) -> usize
        ensures { (result ≡ list_of self) × (result ≤ 3076) }
    {
        match self {
            Region::Short => SHORT_LIST,
            Region::Long => LONG_LIST,
        }
    }

    // How many keys the table takes: three quarters of its slots. It only chooses how to search: nothing rests on the answer.
    pub fn most_keys(self) -> u32 {
        match self {
            Region::Short => 384,
            Region::Long => 576,
        }
    }
}

// The tables and the rows are of no list.
pub fn reset(t: &mut Table)
    requires { length t.old ≡ 3126 }
    ensures { ((w : ℕ) (d : List ℕ) → Known w d t.new) × ((region : Region) → Vacant region t.new) }
{
    clear(t, LISTS, LIST_NUMBERS);
}

// The seed is made from data, if it was not made yet. The keys in the tables were made with another, so these are of no list then.
fn seed_tables(d: &[u8], t: &mut Table, w: usize)
    requires { Known w d.now t.old }
    ensures { Known w d.now t.new }
{
    if has_seed(t) {
        return;
    }
    make_seed(d, t);
    set_list(t, SHORT_LIST, 0, 0);
    set_list(t, LONG_LIST, 0, 0);
}

// A table is of no list and has no keys. d is the data that the seed is made from.
pub fn begin(d: &[u8], region: Region, t: &mut Table, w: usize)
    requires { Known w d.now t.old }
    ensures { Known w d.now t.new × Vacant region t.new }
{
    seed_tables(d, t, w);
    set_list(t, region.list(), 0, 0);
    clear(t, region.first_slot(), region.slots());
}

// A key is in a table that is of no list. How many were added.
pub fn put_key(region: Region, key: u32, t: &mut Table) -> u32
    requires { Vacant region t.old }
    ensures { (result < 2) × Vacant region t.new × ((w : ℕ) (d : List ℕ) → Known w d t.old → Known w d t.new) }
{
    let i = slot_of(t, region.first_slot(), region.slots(), key);
    if t[i] == key {
        return 0;
    }
    t[i] = key;
    1
}

// The sibling at a place, whose name ends at nul, is put down, if its key is in the table.
fn put_place(d: &[u8], place: usize, nul: usize, region: Region, t: &mut Table)
    requires { EndsAt d.now place nul × (place ≤ length d.now) × (length d.now ≤ 16777216) }
    ensures { t.new ≡ with_place (first_slot region) (slots_of region) d.now place t.old }
{
    let key = key_at(d, place, nul, t);
    let slots = region.slots();
    let i = slot_of(t, region.first_slot(), slots, key);
    if t[i] != key {
        return;
    }
    if t[slots + i] == 0 {
        t[slots + i] = place as u32 + 2;
        return;
    }
    t[slots + i] = 1;
}

// Of the k siblings at a place those whose keys are in the table are put down, and the table is of these.
pub fn put_places(d: &[u8], at: usize, k: u32, region: Region, t: &mut Table, w: usize)
    requires { (at ≤ length d.now) × (length d.now ≤ 16777216) × Vacant region t.old × Known w d.now t.old }
    ensures { Known w d.now t.new }
{
    let slots = region.slots();
    clear(t, region.first_slot() + slots, slots);
    let mut place = at;
    for _ in 0..k {
        let sibling = sibling_at(d, place, w);
        put_place(d, place, sibling.nul, region, t);
        place = sibling.next;
    }
    set_list(t, region.list(), at, k);
}

// What a table says of a name among the k siblings at a place: nothing, that none has it, or where the one is that has it.
pub fn find_in_table(
    d: &[u8],
    at: usize,
    k: u32,
    name: &[u8],
    region: Region,
    t: &Table,
    w: usize,
) -> Option<Option<usize>>
    requires { (at ≤ length d.now) × (length d.now ≤ 16777216) × Known w d.now t.now }
    ensures { AnswerHolds w d.now at k name.now result }
{
    if !is_of(t, region.list(), at, k) {
        return None;
    }
    let key = key_of(name, t);
    let slots = region.slots();
    let i = slot_of(t, region.first_slot(), slots, key);
    if t[i] != key {
        return None;
    }
    let number = t[slots + i];
    if number == 0 {
        return Some(None);
    }
    if number == 1 {
        return None;
    }
    let place = place_of(number) - 2;
    if is_named(d, place, name) {
        return Some(Some(place));
    }
    Some(None)
}
