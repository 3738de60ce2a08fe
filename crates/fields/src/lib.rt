// Fields, texts and names in a slice of bytes, and the workspace that holds a name.

#![tactic(auto)]

ghost use Rattle.std.specs.Prelude.{◌≡◌, ◌++◌, ◌+◌, ◌-◌, ◌≤◌, ◌<◌, length, take, drop, replicate};
ghost use Rattle.format.specs.Bytes.{be16, be32, eq_list, before, zeros};
ghost use Rattle.format.specs.Names as Names;
ghost use Rattle.fields.specs.Begun.{Begun};
ghost use Rattle.fields.specs.Words.{little};

use std::cmp::Ordering;

// The most bytes that a name has.
pub const LONGEST: usize = 8192;

// The 16-bit number at a place, the high byte first.
pub fn read16(s: &[u8], at: usize) -> u32
    requires { at + 2 ≤ length s.now }
    ensures { (result ≡ be16 s.now at) × (result < 65536) }
{
    u32::from(u16::from_be_bytes([s[at], s[at + 1]]))
}

// The 32-bit number at a place, the high byte first.
pub fn read32(s: &[u8], at: usize) -> u32
    requires { at + 4 ≤ length s.now }
    ensures { result ≡ be32 s.now at }
{
    u32::from_be_bytes([s[at], s[at + 1], s[at + 2], s[at + 3]])
}

// The place of the first byte b at or after at, or the end.
pub fn find(s: &[u8], at: usize, b: u8) -> usize
    requires { at ≤ length s.now }
    ensures { (result ≡ at + before b (drop at s.now)) × (result ≤ length s.now) }
{
    // No position, and one number for both ends of the loop: where this is put in place, the chain counts four numbers a byte, and check of long
    // lists of names takes a third longer.
    let mut end = at;
    for i in at..s.len() {
        if s[i] == b {
            break;
        }
        end = i + 1;
    }
    end
}

// Whether two texts are equal. The library's ==, promised in the words of the format, which every caller needs.
pub fn same(a: &[u8], b: &[u8]) -> bool
    ensures { result ≡ eq_list a.now b.now }
{
    a == b
}

// Eight bytes at a place as one number, the low byte first.
fn word(s: &[u8], at: usize) -> u64
    requires { at + 8 ≤ length s.now }
    ensures { result ≡ little 8 s.now at }
{
    u64::from_le_bytes([
        s[at],
        s[at + 1],
        s[at + 2],
        s[at + 3],
        s[at + 4],
        s[at + 5],
        s[at + 6],
        s[at + 7],
    ])
}

// How many bytes two texts of at least n bytes have in common at their beginning, as far as whole words of eight tell.
fn common_words(s: &[u8], t: &[u8], n: usize) -> usize
    requires { (n ≤ length s.now) × (n ≤ length t.now) }
    ensures { (result ≤ n) × (Names.common s.now t.now ≡ result + Names.common (drop result s.now) (drop result t.now)) }
{
    for k in 0..n / 8 {
        if word(s, 8 * k) != word(t, 8 * k) {
            return 8 * k;
        }
    }
    n / 8 * 8
}

// How many bytes two texts have in common at their beginning: by words, then by bytes.
pub fn common(s: &[u8], t: &[u8]) -> usize
    ensures { (result ≡ Names.common s.now t.now) × (result ≤ length s.now) × (result ≤ length t.now) }
{
    let n = s.len().min(t.len());
    for i in common_words(s, t, n)..n {
        if s[i] != t[i] {
            return i;
        }
    }
    n
}

// How s compares to t, as unsigned bytes, where they have n in common at their beginning.
pub fn order_after(s: &[u8], t: &[u8], n: usize) -> Ordering
    requires { (n ≡ Names.common s.now t.now) × (n ≤ length s.now) }
    ensures { result ≡ Names.compare s.now t.now }
{
    if s.len() <= n {
        if t.len() <= n {
            return Ordering::Equal;
        }
        return Ordering::Less;
    }
    if t.len() <= n {
        return Ordering::Greater;
    }
    if s[n] < t[n] {
        return Ordering::Less;
    }
    Ordering::Greater
}

// How s compares to t, as unsigned bytes. What they have in common does not count.
pub fn compare(s: &[u8], t: &[u8]) -> Ordering
    ensures { result ≡ Names.compare s.now t.now }
{
    let n = common(s, t);
    order_after(s, t, n)
}

// Whether every byte from a to e is NUL.
pub fn all_zero(s: &[u8], a: usize, e: usize) -> bool
    requires { (a ≤ e) × (e ≤ length s.now) }
    ensures { result ≡ zeros (take (e - a) (drop a s.now)) }
{
    s[a..e].iter().all(|&x| x == 0)
}

// Whether c may be between two slashes.
fn component_ok(c: &[u8]) -> bool
    ensures { result ≡ Names.ok_component c.now }
{
    if 4 < c.len() {
        return true;
    }
    if same(c, b"") {
        return false;
    }
    if same(c, b".") {
        return false;
    }
    if same(c, b"..") {
        return false;
    }
    if same(c, b".git") {
        return false;
    }
    true
}

// Whether s is a name. at is where the component begins that the byte at e belongs to.
pub fn name_ok(s: &[u8]) -> bool
    ensures { result ≡ Names.ok_name s.now }
{
    if LONGEST < s.len() {
        return false;
    }
    let mut at = 0;
    for (e, &x) in s.iter().enumerate() {
        if x == 0 {
            return false;
        }
        if x == b'/' {
            if component_ok(&s[at..e]) {
                at = e + 1;
            } else {
                return false;
            }
        }
    }
    component_ok(&s[at..])
}

// Where the look at a name begins whose first kept bytes begin a sound one: after the last "/" among the last five of these, else at the first
// of the five. A component of which five bytes are there is a good one, whatever follows.
fn look_from(s: &[u8], kept: usize) -> usize
    requires { (kept ≤ length s.now) × (length s.now ≤ 8192) × Begun (take kept s.now) }
    ensures { (result ≤ kept) × (Names.ok_name (drop result s.now) ≡ Names.ok_name s.now) }
{
    let first = kept.saturating_sub(5);
    for i in (first..kept).rev() {
        if s[i] == b'/' {
            return i + 1;
        }
    }
    first
}

// Whether s is a name, where its first kept bytes begin one that is.
pub fn name_ok_after(s: &[u8], kept: usize) -> bool
    requires { (kept ≤ length s.now) × Begun (take kept s.now) }
    ensures { result ≡ Names.ok_name s.now }
{
    if s.len() <= LONGEST {
        let from = look_from(s, kept);
        return name_ok(&s[from..]);
    }
    false
}

// The length field of a name of n bytes.
pub fn length_field(n: usize) -> u32
    ensures { result ≡ Names.length_field n }
{
    n.min(4095) as u32
}

// The workspace from n to its 8,192nd byte is zero.
pub fn clear_from(work: &mut [u8], n: usize)
    requires { (n ≤ 8192) × (8192 ≤ length work.old) }
    ensures { work.new ≡ take n work.old ++ (replicate (8192 - n) 0 ++ drop 8192 work.old) }
{
    work[n..LONGEST].fill(0);
}

// The first 8,192 bytes of the workspace are zero.
pub fn clear(work: &mut [u8])
    requires { 8192 ≤ length work.old }
    ensures { work.new ≡ replicate 8192 0 ++ drop 8192 work.old }
{
    clear_from(work, 0);
}

// The bytes of s are at a place of the workspace.
pub fn copy_to(work: &mut [u8], at: usize, s: &[u8])
    requires { at + length s.now ≤ length work.old }
    ensures { work.new ≡ take at work.old ++ (s.now ++ drop (at + length s.now) work.old) }
{
    // No copy_from_slice: it calls memmove, and the library for C needs memcpy and memset alone.
    for (i, &x) in s.iter().enumerate() {
        work[at + i] = x;
    }
}
