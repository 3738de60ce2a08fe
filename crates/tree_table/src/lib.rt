// A hash table of names. A name has a key; a slot of the table has a key, or 0 where it is empty. Keys are made with two numbers that whoever writes a
// file can't choose, so that two names have the same key by chance only.

#![tactic(auto)]

ghost use Rattle.std.specs.Prelude.{◌≡◌, ℕ, ◌+◌, ◌*◌, ◌%◌, ◌≤◌, ◌<◌, length, get_or, set};
ghost use Rattle.tree_table.specs.Keys.{step_key, last_key, key_in, step_of, next_slot, slot_in, SeedOnly, is_of};

use fields::read32;

// How many numbers the array of a table has. A contract cannot name a constant of the code, so contracts say 3126.
pub const NUMBERS: usize = 3126;

// While a tree is read: KEYS slots. While entries are walked over: two smaller tables and rows of cursors in their stead (tree_search says where). After
// them the seed, then the lists of siblings that these tables and rows are of.
pub type Table = [u32; NUMBERS];

// The slots: 12 KiB. More would make the search in lists of a million siblings in no order faster, and take stack from every call.
pub const KEYS: usize = 3072;

// The two numbers that keys are made with; 0 where they were not made yet.
const SEED: usize = 3072;

// One more digit of a key: a polynomial modulo 2^31 - 1, but for multiples of that which are left in.
fn step_key(m: u64, h: u64, x: u64) -> u64
    requires { (h * m < 4611686018427387904) × (x < 1073741824) }
    ensures { (result ≡ step_key m h x) × (0 < result) × (result < 4294967296) }
{
    let y = h * m + x + 1;
    y % 2147483648 + y / 2147483648
}

// The last step, a square: it spreads names that rise by even steps, which would be side by side in a table.
fn last_key(h: u64, n: u64) -> u32
    requires { n < 1073741824 }
    ensures { (result ≡ last_key h n) × (0 < result) }
{
    let g = h % 2147483648;
    step_key(g, g, n) as u32
}

// A number of the seed, so small that a product with any key fits 64 bits.
fn multiplier(x: u32) -> u64
    ensures { (result ≡ x % 1073741824) × (result < 1073741824) }
{
    u64::from(x) % 1073741824
}

// The key of a name: two bytes are a digit, and the two numbers take turns, so that no search for one of them finds names with the same key.
pub fn key_of(s: &[u8], t: &Table) -> u32
    ensures { (result ≡ key_in t.now s.now) × (0 < result) }
{
    let mut m = multiplier(t[SEED]);
    let mut n = multiplier(t[SEED + 1]);
    let mut h: u64 = 0;
    let (pairs, odd) = s.as_chunks::<2>();
    for pair in pairs {
        h = step_key(m, h, u64::from(pair[0]) + u64::from(pair[1]) * 256);
        (m, n) = (n, m);
    }
    if odd.len() == 1 {
        return last_key(step_key(m, h, u64::from(odd[0]) + 65536), n);
    }
    last_key(h, n)
}

// Whether the seed was made.
pub fn has_seed(t: &Table) -> bool {
    t[SEED] != 0
}

// The seed is made from SHA-1 of the data, if it was not made yet. Neither number is 0.
pub fn make_seed(d: &[u8], t: &mut Table)
    ensures { SeedOnly t.old t.new }
{
    if t[SEED] == 0 {
        let digest = hash::sha1(d);
        t[SEED] = read32(&digest, 0) % 1073741823 + 1;
        t[SEED + 1] = read32(&digest, 4) % 1073741823 + 1;
    }
}

// How far apart the slots are that are tried for a key (double hashing): an odd number below 512.
fn step_of(key: u32) -> usize
    ensures { (result ≡ step_of key) × (result < 512) }
{
    (key / 65536 % 256) as usize * 2 + 1
}

// The slot that is tried after another, as many slots further as step, and from the first one on again after the last.
fn next_slot(i: usize, step: usize, slots: usize) -> usize
    requires { (i < slots) × (step < 512) × (512 ≤ slots) × (slots ≤ 3072) }
    ensures { (result ≡ next_slot slots step i) × (result < slots) }
{
    if i + step < slots {
        return i + step;
    }
    i + step - slots
}

// The slot of a key among those from a place on, as many as slots: that of the key itself or an empty one, of those that are tried for it; the last tried
// where there is neither.
pub fn slot_of(t: &Table, from: usize, slots: usize, key: u32) -> usize
    requires { (512 ≤ slots) × (from + slots ≤ 3072) }
    ensures { (result ≡ slot_in from slots t.now key) × (from ≤ result) × (result < from + slots) }
{
    let step = step_of(key);
    let mut i = key as usize % slots;
    for _ in 1..slots {
        if t[from + i] == key {
            return from + i;
        }
        if t[from + i] == 0 {
            return from + i;
        }
        i = next_slot(i, step, slots);
    }
    from + i
}

// The n numbers from a place on are 0.
pub fn clear(t: &mut Table, from: usize, n: usize)
    requires { from + n ≤ 3126 }
    ensures { (length t.new ≡ length t.old) × ((i : ℕ) → i < n → get_or t.new (from + i) 0 ≡ 0) × ((i : ℕ) → (from ≤ i → i < from + n → ⊥) → get_or t.new i 0 ≡ get_or t.old i 0) }
{
    t[from..from + n].fill(0);
}

// A number of a table as a place.
pub fn place_of(x: u32) -> usize
    ensures { result ≡ x }
{
    x as usize
}

// Whether a table has at i the place of k siblings and their number, and there are some.
pub fn is_of(t: &Table, i: usize, at: usize, k: u32) -> bool
    requires { i + 1 < 3126 }
    ensures { result ≡ is_of t.now i at k }
{
    if k == 0 {
        return false;
    }
    if place_of(t[i]) == at {
        return t[i + 1] == k;
    }
    false
}

// It has them there.
pub fn set_list(t: &mut Table, i: usize, at: usize, k: u32)
    requires { (i + 1 < 3126) × (at < 4294967296) }
    ensures { t.new ≡ set (set t.old i at) (i + 1) k }
{
    t[i] = at as u32;
    t[i + 1] = k;
}
