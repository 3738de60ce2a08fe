// Operations on 32-bit words and the padding of messages, after FIPS 180-4: what SHA-1 and SHA-256 share.

#![tactic(auto)]

pub mod block_hash;
pub mod buffered;

ghost use Rattle.std.specs.Prelude.{◌≡◌, ◌+◌, ◌*◌, ◌%◌, ◌^◌, ◌<◌, ◌≤◌, length};
ghost use Rattle.std.proofs.lemmas.List.Edits.{sets};
ghost use Rattle.hash_words.specs.Words as W;
ghost use Rattle.hash_words.specs.Padding.{be64, Tail};

// The rotation to the left by n bits (3.2).
pub fn rotl(x: u32, n: u32) -> u32
    requires { (0 < n) × (n < 32) }
    ensures { result ≡ W.rotl n x }
{
    x.rotate_left(n)
}

// The rotation to the right by n bits (3.2).
pub fn rotr(x: u32, n: u32) -> u32
    requires { (0 < n) × (n < 32) }
    ensures { result ≡ W.rotr n x }
{
    x.rotate_right(n)
}

// Each bit of y where x has a 1, of z where x has a 0 (4.1).
pub fn ch(x: u32, y: u32, z: u32) -> u32
    ensures { result ≡ W.ch x y z }
{
    (x & y) ^ (!x & z)
}

// Each bit that at least two of the words have (4.1).
pub fn maj(x: u32, y: u32, z: u32) -> u32
    ensures { result ≡ W.maj x y z }
{
    (x & y) ^ (x & z) ^ (y & z)
}

// The word at a byte, the most significant byte first.
fn word(p: &[u8], at: usize) -> u32
    requires { at + 3 < length p.now }
    ensures { result ≡ W.be32 p.now at }
{
    u32::from_be_bytes([p[at], p[at + 1], p[at + 2], p[at + 3]])
}

// The sixteen words of the block at a byte (5.2.1).
pub fn load(p: &[u8], at: usize) -> [u32; 16]
    requires { at + 64 ≤ length p.now }
    ensures { result ≡ W.words p.now at 16 }
{
    let mut w = [0u32; 16];
    for i in 0..16usize {
        w[i] = word(p, at + i * 4);
    }
    w
}

// Stores the four bytes of a word, the most significant first.
pub fn put_word(out: &mut [u8], at: usize, x: u32)
    requires { at + 4 ≤ length out.old }
    ensures { out.new ≡ sets out.old at (W.bytes4 x) }
{
    out[at..at + 4].copy_from_slice(&x.to_be_bytes());
}

// Stores the length of n bytes in bits, as 64 bits.
fn put_length(out: &mut [u8; 128], at: usize, n: u64)
    requires { at + 8 ≤ 128 }
    ensures { out.new ≡ sets out.old at (be64 (n * 8)) }
{
    let bits = n << 3;
    out[at..at + 8].copy_from_slice(&bits.to_be_bytes());
}

// Copies bytes over others, from a place on. No copy_from_slice: of a length known at run time only it calls memmove, and
// the library for C needs memcpy and memset alone.
fn copy_over(out: &mut [u8], at: usize, bytes: &[u8])
    requires { at + length bytes.now ≤ length out.old }
    ensures { out.new ≡ sets out.old at bytes.now }
{
    for (i, &x) in bytes.iter().enumerate() {
        out[at + i] = x;
    }
}

// Copies bytes over those of a block, from a place on.
pub fn fill(block: &mut [u8; 64], at: usize, bytes: &[u8])
    requires { at + length bytes.now ≤ 64 }
    ensures { block.new ≡ sets block.old at bytes.now }
{
    copy_over(block, at, bytes);
}

// How many bytes of a message are in no whole block.
pub fn kept(length: u64) -> usize
    ensures { result ≡ length % 64 }
{
    (length % 64) as usize
}

// The length of a message with n bytes more, modulo 2 ^ 64.
pub fn longer(length: u64, n: usize) -> u64
    ensures { result ≡ (length + n) % 2 ^ 64 }
{
    length.wrapping_add(n as u64)
}

// What follows the last whole block of rest in the padded message; the whole message is length bytes long (5.1.1).
// It is the first 64 bytes of the result where less than 56 bytes of rest are in no whole block, else all 128.
pub fn tail(rest: &[u8], length: u64) -> [u8; 128]
    ensures { Tail length rest.now result }
{
    let part = rest.len() % 64;
    let mut t = [0u8; 128];
    copy_over(&mut t, 0, &rest[rest.len() - part..]);
    t[part] = 128;
    let end: usize = if part < 56 { 56 } else { 120 };
    put_length(&mut t, end, length);
    t
}
