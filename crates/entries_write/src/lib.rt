// Entries of a body that were read before, written in a version: the name, what follows the object name, an entry, entries one after another.

#![tactic(auto)]

ghost use Rattle.std.specs.Prelude.{◌≡◌, not, ◌||◌, ◌+◌, ◌*◌, ◌≤◌, ◌<◌, length};
ghost use Rattle.format.specs.Bytes.{put_n};
ghost use Rattle.format.specs.Reader.{is_set};
ghost use Rattle.format.specs.Writer.{write_plain, write_packed, write_name};
ghost use Rattle.output.specs.Output.{Wrote};
ghost use Rattle.entries_run.specs.Steps.{name_at, entry_at, Inside, Readable};
ghost use Rattle.entries_write.specs.Parts.{PrefixKept, NameWritten, RestWritten, entry_by, EntryWritten, StepRead, EntriesWritten};

use entries_run::{Cursor, Step};

// How far writing is: the cursor in the body, the place in the output, and whether an entry so far needs the extended word.
#[derive(Clone, Copy)]
pub struct Progress {
    pub cursor: Cursor,
    pub at: usize,
    pub extended: bool,
}

// The number N of version 4.
pub fn put_number(out: &mut [u8], at: usize, n: usize) -> usize
    requires { (at < 1125899906842624) × (n ≤ 8192) }
    ensures { Wrote out.old at (put_n n) out.new result × (result ≤ at + 2) }
{
    if n < 128 {
        return output::put_byte(out, at, n as u8);
    }
    let middle = output::put_byte(&mut *out, at, (128 + n / 128 - 1) as u8);
    output::put_byte(out, middle, (n % 128) as u8)
}

// A name of versions 2 and 3, of an entry with f bytes before it: 1 to 8 NULs follow.
pub fn put_plain(out: &mut [u8], at: usize, f: usize, name: &[u8]) -> usize
    requires { (at + 8200 ≤ 1125899906842624) × (f ≤ 76) × (length name.now ≤ 8192) }
    ensures { Wrote out.old at (write_plain f name.now) out.new result × (result ≤ at + 8200) }
{
    let n = name.len();
    let all = entries::entry_length(f, n);
    let end = output::put_bytes(&mut *out, at, name);
    output::put_nuls(out, end, all - (f + n))
}

// A name of version 4, after one of previous bytes, of which it keeps the first kept.
pub fn put_packed(out: &mut [u8], at: usize, previous: usize, kept: usize, name: &[u8]) -> usize
    requires { (at + 8200 ≤ 1125899906842624) × PrefixKept name.now previous kept }
    ensures { NameWritten out.old at name.now previous kept (λ p. write_packed p name.now) out.new result }
{
    let middle = put_number(&mut *out, at, previous - kept);
    let end = output::put_part(&mut *out, middle, name, kept, name.len());
    output::put_byte(out, end, 0)
}

// A name of a version, of an entry with f bytes before it.
fn put_name(
    out: &mut [u8],
    at: usize,
    version: u32,
    f: usize,
    name: &[u8],
    previous: usize,
    kept: usize,
) -> usize
    requires { (at + 8200 ≤ 1125899906842624) × (f ≤ 76) × PrefixKept name.now previous kept }
    ensures { NameWritten out.old at name.now previous kept (λ p. write_name version f p name.now) out.new result }
{
    if version == 4 {
        return put_packed(out, at, previous, kept, name);
    }
    put_plain(out, at, f, name)
}

// What follows the object name: the flags, the extended word where one of its bits is set, and the name.
pub fn put_rest(
    out: &mut [u8],
    at: usize,
    version: u32,
    base: u32,
    word: u32,
    name: &[u8],
    previous: usize,
    kept: usize,
    w: usize,
) -> usize
    requires { (at + 8204 ≤ 1125899906842624) × (base < 65536) × PrefixKept name.now previous kept × (w ≤ 32) }
    ensures { RestWritten w out.old at version base word name.now previous kept out.new result }
{
    let flags = base + fields::length_field(name.len());
    if word == 0 {
        let end = output::put_16(&mut *out, at, flags);
        return put_name(out, end, version, 40 + w + 2, name, previous, kept);
    }
    let middle = output::put_16(&mut *out, at, flags + 16384);
    let end = output::put_16(&mut *out, middle, word);
    put_name(out, end, version, 40 + w + 4, name, previous, kept)
}

// The entry at a place of the body with these flags and this extended word, or 0, whose name has len bytes and is at start. Only its first 40 + w
// bytes are copied. Numbers are handed on here, and not a Step: a struct by value goes through memory.
pub fn put_step<'a>(
    b: &'a [u8],
    v: u32,
    work: &'a [u8],
    from: usize,
    flags: u32,
    word: u32,
    start: usize,
    len: usize,
    version: u32,
    previous: usize,
    kept: usize,
    out: &mut [u8],
    at: usize,
    w: usize,
) -> usize
    requires { (at + 8276 ≤ 1125899906842624) × (from + (40 + w) ≤ length b.now) × (start + len ≤ length b.now) × (len ≤ 8192) × (8192 ≤ length work.now) × PrefixKept (name_at v b.now work.now start len) previous kept × (w ≤ 32) }
    ensures { EntryWritten w out.old at version (entry_by w v b.now work.now from flags word start len) previous kept out.new result }
{
    let middle = output::put_part(&mut *out, at, b, from, from + (40 + w));
    let base = flags / 32768 % 2 * 32768 + flags / 4096 % 4 * 4096;
    let needed = word / 8192 % 4 * 8192;
    let name = entries_run::name_at(b, v, work, start, len);
    put_rest(out, middle, version, base, needed, name, previous, kept, w)
}

// Whether an entry with this extended word, or 0 without one, needs it, or one before did.
pub fn either(extended: bool, word: u32) -> bool
    ensures { result ≡ (extended || (is_set 16384 word || is_set 8192 word)) }
{
    if extended {
        return true;
    }
    if word / 16384 % 2 == 1 {
        return true;
    }
    word / 8192 % 2 == 1
}

// Whether the bytes before a name stay as they are: an extended word is left out where none of its bits is set.
fn stays(flags: u32, word: u32) -> bool
    ensures { result ≡ (not (is_set 16384 flags) || (is_set 16384 word || is_set 8192 word)) }
{
    if flags / 16384 % 2 == 1 {
        return either(false, word);
    }
    true
}

// The entry that a step read, by copying the bytes that stay as they are: all of them, or those before its name.
fn put_read<'a>(
    b: &'a [u8],
    v: u32,
    work: &'a [u8],
    from: usize,
    st: Step,
    version: u32,
    previous: usize,
    kept: usize,
    out: &mut [u8],
    at: usize,
    w: usize,
) -> usize
    requires { (at + 8276 ≤ 1125899906842624) × StepRead w v b.now work.now from st × (8192 ≤ length work.now) × PrefixKept (name_at v b.now work.now st.next.start st.next.len) previous kept × (w ≤ 32) }
    ensures { EntryWritten w out.old at version (entry_at w v b.now work.now from st) previous kept out.new result }
{
    let start = st.next.start;
    let len = st.next.len;
    if stays(st.flags, st.word) {
        if (v != 4) & (version != 4) {
            return output::put_part(out, at, b, from, st.next.at);
        }
        let middle = output::put_part(&mut *out, at, b, from, from + st.head);
        let name = entries_run::name_at(b, v, work, start, len);
        return put_name(out, middle, version, st.head, name, previous, kept);
    }
    put_step(
        b, v, work, from, st.flags, st.word, start, len, version, previous, kept, out, at, w,
    )
}

// n entries from a cursor on, which were read before.
pub fn put_entries(
    b: &[u8],
    v: u32,
    work: &mut [u8],
    c: Cursor,
    n: u32,
    version: u32,
    out: &mut [u8],
    at: usize,
    w: usize,
) -> Progress
    requires { Inside b.now c × (8192 ≤ length work.old) × (at + n * 8276 ≤ 1125899906842624) × Readable w v n b.now work.old c × (w ≤ 32) }
    ensures { EntriesWritten w v b.now work.old c n version out.old at work.new out.new result }
{
    let mut cursor = c;
    let mut end = at;
    let mut extended = false;
    for _ in 0..n {
        let Ok(st) = entries_run::pass_entry(b, v, &mut *work, cursor, w) else {
            return Progress {
                cursor: cursor,
                at: end,
                extended: extended,
            };
        };
        end = put_read(
            b, v, &*work, cursor.at, st, version, cursor.len, st.common, &mut *out, end, w,
        );
        extended = either(extended, st.word);
        cursor = st.next;
    }
    Progress {
        cursor: cursor,
        at: end,
        extended: extended,
    }
}
