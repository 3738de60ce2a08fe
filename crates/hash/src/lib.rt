// SHA-1, FIPS 180-4. A message is hashed in one call, or in pieces: start, absorb for each piece of whole blocks, finish.
// The module buffered takes pieces of any length.

#![tactic(auto)]

pub mod buffered;

ghost use Rattle.std.specs.Prelude.{◌≡◌, List, ℕ, ◌+◌, ◌<◌, ◌≤◌, length, get_or};
ghost use Rattle.hash_words.specs.Window.{Holds};
ghost use Rattle.hash.specs.Sha1 as F;
ghost use Rattle.hash.specs.Window.{At};

use hash_words::block_hash::{BlockHash, digest_of};
use hash_words::{ch, load, maj, put_word, rotl};

// With a state of this hash, `absorb` and `finish` are SHA-1's.
pub use hash_words::block_hash::{absorb, finish};

// The hash value H_0 .. H_4 between blocks, and the working variables a .. e within one.
#[derive(Clone, Copy)]
pub struct State {
    pub a: u32,
    pub b: u32,
    pub c: u32,
    pub d: u32,
    pub e: u32,
}

// The bitwise sum of three words (4.1.1).
fn parity(x: u32, y: u32, z: u32) -> u32
    ensures { result ≡ F.parity x y z }
{
    x ^ y ^ z
}

// The function of round t (4.1.1).
#[tactic(auto, unfolding(crate::specs::Sha1::f, crate::specs::Sha1::quarter))]
fn mix(t: usize, x: u32, y: u32, z: u32) -> u32
    ensures { result ≡ F.f t x y z }
{
    if t < 20 {
        return ch(x, y, z);
    }
    if t < 40 {
        return parity(x, y, z);
    }
    if t < 60 {
        return maj(x, y, z);
    }
    parity(x, y, z)
}

// The constant of round t (4.2.1).
#[tactic(auto, unfolding(crate::specs::Sha1::K, crate::specs::Sha1::quarter))]
fn constant(t: usize) -> u32
    ensures { result ≡ F.K t }
{
    if t < 20 {
        return 0x5a827999;
    }
    if t < 40 {
        return 0x6ed9eba1;
    }
    if t < 60 {
        return 0x8f1bbcdc;
    }
    0xca62c1d6
}

// The word of round t (6.1.2, step 1), with room for sixteen (6.1.3): from round 16 on it takes the place of the oldest in the window.
fn word_of(w: &mut [u32; 16], t: usize) -> u32
    requires { t < 80 }
    ensures { (m : List ℕ) → length m ≡ 16 → Holds (F.schedule m) t w.old → (result ≡ get_or (F.schedule m) t 0) × Holds (F.schedule m) (t + 1) w.new }
{
    if t < 16 {
        return w[t];
    }
    let x = rotl(
        w[(t + 13) % 16] ^ w[(t + 8) % 16] ^ w[(t + 2) % 16] ^ w[t % 16],
        1,
    );
    w[t % 16] = x;
    x
}

// Round t with the word x (6.1.2, step 3).
#[tactic(auto, unfolding(crate::specs::Sha1::round))]
fn step(s: State, t: usize, x: u32) -> State
    ensures { result ≡ F.round t x s }
{
    let sum = rotl(s.a, 5)
        .wrapping_add(mix(t, s.b, s.c, s.d))
        .wrapping_add(s.e)
        .wrapping_add(constant(t))
        .wrapping_add(x);
    State {
        a: sum,
        b: s.a,
        c: rotl(s.b, 30),
        d: s.c,
        e: s.d,
    }
}

// Round t with its own word: one contract for every round. m is the block, h the state before it.
fn round(s: State, w: &mut [u32; 16], t: usize) -> State
    requires { t < 80 }
    ensures { (h : State) (m : List ℕ) → At h m t w.old s → At h m (t + 1) w.new result }
{
    let x = word_of(w, t);
    step(s, t, x)
}

// Five rounds, from round t on.
fn five(s: State, w: &mut [u32; 16], t: usize) -> State
    requires { t + 5 ≤ 80 }
    ensures { (h : State) (m : List ℕ) → At h m t w.old s → At h m (t + 5) w.new result }
{
    let s1 = round(s, w, t);
    let s2 = round(s1, w, t + 1);
    let s3 = round(s2, w, t + 2);
    let s4 = round(s3, w, t + 3);
    round(s4, w, t + 4)
}

// The sums that end a block (6.1.2, step 4).
#[tactic(auto, unfolding(crate::specs::Sha1::chain))]
fn chain(h: State, s: State) -> State
    ensures { result ≡ F.chain h s }
{
    State {
        a: h.a.wrapping_add(s.a),
        b: h.b.wrapping_add(s.b),
        c: h.c.wrapping_add(s.c),
        d: h.d.wrapping_add(s.d),
        e: h.e.wrapping_add(s.e),
    }
}

impl BlockHash for State {
    type Digest = [u8; 20];

    ghost start = { F.H0 };

    ghost block = { F.block };

    ghost digest = { F.digest };

    // The state before any block (5.3.1).
    #[tactic(auto, unfolding(crate::specs::Sha1::H0))]
    fn start() -> State {
        State {
            a: 0x67452301,
            b: 0xefcdab89,
            c: 0x98badcfe,
            d: 0x10325476,
            e: 0xc3d2e1f0,
        }
    }

    // A block (6.1.2). Straight-line code, so that every round's number is a constant once the calls are inlined.
    fn block(self, bytes: &[u8]) -> State {
        let mut w = load(bytes, 0);
        let s5 = five(self, &mut w, 0);
        let s10 = five(s5, &mut w, 5);
        let s15 = five(s10, &mut w, 10);
        let s20 = five(s15, &mut w, 15);
        let s25 = five(s20, &mut w, 20);
        let s30 = five(s25, &mut w, 25);
        let s35 = five(s30, &mut w, 30);
        let s40 = five(s35, &mut w, 35);
        let s45 = five(s40, &mut w, 40);
        let s50 = five(s45, &mut w, 45);
        let s55 = five(s50, &mut w, 50);
        let s60 = five(s55, &mut w, 55);
        let s65 = five(s60, &mut w, 60);
        let s70 = five(s65, &mut w, 65);
        let s75 = five(s70, &mut w, 70);
        let s80 = five(s75, &mut w, 75);
        chain(self, s80)
    }

    // The bytes of the five words (6.1.2).
    #[tactic(auto, unfolding(crate::specs::Sha1::digest, hash_words::specs::Words::bytes4))]
    fn digest(self) -> [u8; 20] {
        let mut out = [0u8; 20];
        put_word(&mut out, 0, self.a);
        put_word(&mut out, 4, self.b);
        put_word(&mut out, 8, self.c);
        put_word(&mut out, 12, self.d);
        put_word(&mut out, 16, self.e);
        out
    }
}

// The state before any block: the trait's, under the name that callers have for it.
pub fn start() -> State
    ensures { result ≡ F.H0 }
{
    State::start()
}

// The SHA-1 of a message.
pub fn sha1(bytes: &[u8]) -> [u8; 20]
    ensures { result ≡ F.sha1 bytes.now }
{
    digest_of::<State>(bytes)
}
