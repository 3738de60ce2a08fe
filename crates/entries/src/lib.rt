// The entries of a body, read.

#![tactic(auto)]

pub mod record;

ghost use Rattle.std.specs.Prelude.{◌≡◌, ℕ, ◌+◌, ◌-◌, ◌<◌, ◌≤◌, length, take, drop, get_or};
ghost use Rattle.format.specs.Layout.{ok_mode, entry_length};
ghost use Rattle.format.specs.Reader.{ok_word, plain_length, read_plain, read_n};
ghost use Rattle.format.specs.Refusals.{numbered};
ghost use Rattle.fields.specs.Begun.{Begun};
ghost use Rattle.entries.specs.Answers.{read_head, fixed_of, head_length, HeadPassed, text_of, text_length, text_taken, HasLength, NamePassed, n_of, number_value, number_taken};

use format::Refusal;

// The bytes before the name: how many, the flags, and the extended word or 0.
#[derive(Clone, Copy)]
pub struct Head {
    pub length: usize,
    pub flags: u32,
    pub word: u32,
}

// A name: its length, and how many bytes were taken, with the NULs after it.
#[derive(Clone, Copy)]
pub struct Text {
    pub length: usize,
    pub taken: usize,
}

// The number N of version 4, and how many bytes were taken.
#[derive(Clone, Copy)]
pub struct Number {
    pub value: usize,
    pub taken: usize,
}

// The modes that an entry may have: a file, one that may be executed, a symbolic link, a submodule.
const FILE: u32 = 0x81_a4;

const EXECUTABLE: u32 = 0x81_ed;

const LINK: u32 = 0xa000;

const SUBMODULE: u32 = 0xe000;

// Whether an entry may have the mode m.
pub fn mode_ok(m: u32) -> bool
    ensures { result ≡ ok_mode m }
{
    matches!(m, FILE | EXECUTABLE | LINK | SUBMODULE)
}

// Whether x may be an extended word.
pub fn word_ok(x: u32) -> bool
    ensures { result ≡ ok_word x }
{
    x < 32768 && x % 8192 == 0
}

// What is before the name of the entry of version v at a place; w is the width of an object name.
pub fn read_fixed(b: &[u8], at: usize, v: u32, w: usize) -> Result<Head, Refusal>
    requires { (at ≤ length b.now) × (w ≤ 32) }
    ensures { ((p : ℕ) → numbered result ≡ fixed_of (read_head w v p (drop at b.now))) × (at + head_length result ≤ length b.now) }
{
    let f = 40 + w;
    if b.len() - at < f + 2 {
        return Err(Refusal::EntryCut);
    }
    let m = fields::read32(b, at + 24);
    if !mode_ok(m) {
        return Err(Refusal::EntryMode);
    }
    let x = fields::read16(b, at + f);
    if x / 16384 % 2 == 0 {
        return Ok(Head {
            length: f + 2,
            flags: x,
            word: 0,
        });
    }
    if v == 2 {
        return Err(Refusal::EntryFlags);
    }
    if b.len() - at < f + 4 {
        return Err(Refusal::EntryCut);
    }
    let y = fields::read16(b, at + (42 + w));
    if !word_ok(y) {
        return Err(Refusal::EntryFlags);
    }
    Ok(Head {
        length: f + 4,
        flags: x,
        word: y,
    })
}

// The same where it was read before: nothing is tested but that it is there.
pub fn pass_fixed(b: &[u8], at: usize, w: usize) -> Result<Head, Refusal>
    requires { (at ≤ length b.now) × (w ≤ 32) }
    ensures { HeadPassed w b.now at result }
{
    let f = 40 + w;
    if b.len() - at < f + 2 {
        return Err(Refusal::EntryCut);
    }
    let flags = fields::read16(b, at + f);
    if flags / 16384 % 2 == 0 {
        return Ok(Head {
            length: f + 2,
            flags: flags,
            word: 0,
        });
    }
    if b.len() - at < f + 4 {
        return Err(Refusal::EntryCut);
    }
    let word = fields::read16(b, at + (42 + w));
    Ok(Head {
        length: f + 4,
        flags: flags,
        word: word,
    })
}

// The number N of version 4 at a place, where the previous name has most bytes.
pub fn read_n(b: &[u8], at: usize, most: usize) -> Result<Number, Refusal>
    requires { (at ≤ length b.now) × (length b.now ≤ 16777216) }
    ensures { ((p : ℕ) → numbered result ≡ n_of (read_n p most (drop at b.now))) × (number_value result ≤ most) × (at + number_taken result ≤ length b.now) }
{
    if b.len() - at < 1 {
        return Err(Refusal::EntryCut);
    }
    let x = usize::from(b[at]);
    if x < 128 {
        if most < x {
            return Err(Refusal::EntryLayout);
        }
        return Ok(Number { value: x, taken: 1 });
    }
    if b.len() - at < 2 {
        return Err(Refusal::EntryCut);
    }
    let y = usize::from(b[at + 1]);
    if 128 <= y {
        return Err(Refusal::EntryLayout);
    }
    let n = (x - 128 + 1) * 128 + y;
    if most < n {
        return Err(Refusal::EntryLayout);
    }
    Ok(Number { value: n, taken: 2 })
}

// The length of the name at a place, as the length field says it.
pub fn plain_length(b: &[u8], at: usize, field: u32) -> usize
    requires { at ≤ length b.now }
    ensures { (result ≡ plain_length field (drop at b.now)) × (result < length b.now + 4095) }
{
    if field < 4095 {
        return field as usize;
    }
    fields::find(b, at, 0) - at
}

// The length of an entry with f bytes before a name of n.
pub fn entry_length(f: usize, n: usize) -> usize
    requires { (f ≤ 76) × (n ≤ 16777216) }
    ensures { (result ≡ entry_length f n) × (f + n < result) × (result ≤ f + n + 8) }
{
    8 * ((f + n) / 8) + 8
}

// The name of versions 2 and 3 at a place, which has n bytes by its length field, with the NULs after it; f bytes of its entry are before it. Its
// first kept bytes begin a sound name.
pub fn read_named(
    b: &[u8],
    at: usize,
    n: usize,
    f: usize,
    field: u32,
    kept: usize,
) -> Result<Text, Refusal>
    requires { (at ≤ length b.now) × (n < length b.now - at) × (n ≡ plain_length field (drop at b.now)) × (f ≤ 76) × (kept ≤ n) × Begun (take kept (drop at b.now)) }
    ensures { ((p : ℕ) → numbered result ≡ text_of (read_plain f p field (drop at b.now))) × (text_length result ≤ text_taken result) × (at + text_taken result ≤ length b.now) × HasLength n result }
{
    let e = at + n;
    if !fields::name_ok_after(&b[at..e], kept) {
        return Err(Refusal::EntryName);
    }
    if field != fields::length_field(n) {
        return Err(Refusal::EntryName);
    }
    let m = entry_length(f, n) - f;
    if b.len() - at < m {
        return Err(Refusal::EntryCut);
    }
    if !fields::all_zero(b, e, at + m) {
        return Err(Refusal::EntryLayout);
    }
    Ok(Text {
        length: n,
        taken: m,
    })
}

// The same of a name of which nothing is known.
pub fn read_plain(b: &[u8], at: usize, f: usize, field: u32) -> Result<Text, Refusal>
    requires { (at ≤ length b.now) × (f ≤ 76) }
    ensures { ((p : ℕ) → numbered result ≡ text_of (read_plain f p field (drop at b.now))) × (text_length result ≤ text_taken result) × (at + text_taken result ≤ length b.now) }
{
    let n = plain_length(b, at, field);
    if b.len() - at <= n {
        return Err(Refusal::EntryCut);
    }
    read_named(b, at, n, f, field, 0)
}

// The same where it was read before: nothing is tested but that it is there and within the limit.
pub fn pass_plain(b: &[u8], at: usize, f: usize, field: u32) -> Result<Text, Refusal>
    requires { (at ≤ length b.now) × (f ≤ 76) }
    ensures { NamePassed b.now at f field result }
{
    let n = plain_length(b, at, field);
    if fields::LONGEST < n {
        return Err(Refusal::EntryName);
    }
    let m = entry_length(f, n) - f;
    if b.len() - at < m {
        return Err(Refusal::EntryCut);
    }
    Ok(Text {
        length: n,
        taken: m,
    })
}
