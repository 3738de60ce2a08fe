// SHA-256, FIPS 180-4. A message is hashed in one call, or in pieces: start, absorb for each piece of whole blocks, finish.
// The module buffered takes pieces of any length.

#![tactic(auto)]

pub mod buffered;

ghost use Rattle.std.specs.Prelude.{◌≡◌, List, ℕ, ◌+◌, ◌<◌, ◌≤◌, length, get_or};
ghost use Rattle.hash_words.specs.Window.{Holds};
ghost use Rattle.sha256.specs.Sha256 as F;
ghost use Rattle.sha256.specs.Window.{At};

use hash_words::block_hash::{BlockHash, digest_of};
use hash_words::{ch, load, maj, put_word, rotr};

// With a state of this hash, `absorb` and `finish` are SHA-256's.
pub use hash_words::block_hash::{absorb, finish};

// The hash value H_0 .. H_7 between blocks, and the working variables a .. h within one.
#[derive(Clone, Copy)]
pub struct State {
    pub a: u32,
    pub b: u32,
    pub c: u32,
    pub d: u32,
    pub e: u32,
    pub f: u32,
    pub g: u32,
    pub h: u32,
}

// Σ_0, of the working variable a (4.1.2).
#[tactic(auto, unfolding(crate::specs::Sha256::big0))]
fn big0(x: u32) -> u32
    ensures { result ≡ F.big0 x }
{
    rotr(x, 2) ^ rotr(x, 13) ^ rotr(x, 22)
}

// Σ_1, of the working variable e (4.1.2).
#[tactic(auto, unfolding(crate::specs::Sha256::big1))]
fn big1(x: u32) -> u32
    ensures { result ≡ F.big1 x }
{
    rotr(x, 6) ^ rotr(x, 11) ^ rotr(x, 25)
}

// σ_0, for the schedule (4.1.2).
#[tactic(auto, unfolding(crate::specs::Sha256::small0))]
fn small0(x: u32) -> u32
    ensures { result ≡ F.small0 x }
{
    rotr(x, 7) ^ rotr(x, 18) ^ (x >> 3)
}

// σ_1, for the schedule (4.1.2).
#[tactic(auto, unfolding(crate::specs::Sha256::small1))]
fn small1(x: u32) -> u32
    ensures { result ≡ F.small1 x }
{
    rotr(x, 17) ^ rotr(x, 19) ^ (x >> 10)
}

// The word of round t (6.2.2, step 1), with room for sixteen (6.2.3): from round 16 on it takes the place of the oldest in the window.
fn word_of(w: &mut [u32; 16], t: usize) -> u32
    requires { t < 64 }
    ensures { (m : List ℕ) → length m ≡ 16 → Holds (F.schedule m) t w.old → (result ≡ get_or (F.schedule m) t 0) × Holds (F.schedule m) (t + 1) w.new }
{
    if t < 16 {
        return w[t];
    }
    let x = small1(w[(t + 14) % 16])
        .wrapping_add(w[(t + 9) % 16])
        .wrapping_add(small0(w[(t + 1) % 16]))
        .wrapping_add(w[t % 16]);
    w[t % 16] = x;
    x
}

// T_1 of the round with the constant k and the word x (6.2.2, step 3).
#[tactic(auto, unfolding(crate::specs::Sha256::T1))]
fn first_sum(s: State, k: u32, x: u32) -> u32
    ensures { result ≡ F.T1 k x s }
{
    s.h.wrapping_add(big1(s.e))
        .wrapping_add(ch(s.e, s.f, s.g))
        .wrapping_add(k)
        .wrapping_add(x)
}

// T_2 (6.2.2, step 3).
#[tactic(auto, unfolding(crate::specs::Sha256::T2))]
fn second_sum(s: State) -> u32
    ensures { result ≡ F.T2 s }
{
    big0(s.a).wrapping_add(maj(s.a, s.b, s.c))
}

// The round with the constant k and the word x (6.2.2, step 3).
#[tactic(auto, unfolding(crate::specs::Sha256::round))]
fn step(s: State, k: u32, x: u32) -> State
    ensures { result ≡ F.round k x s }
{
    let first = first_sum(s, k, x);
    let second = second_sum(s);
    State {
        a: first.wrapping_add(second),
        b: s.a,
        c: s.b,
        d: s.c,
        e: s.d.wrapping_add(first),
        f: s.e,
        g: s.f,
        h: s.g,
    }
}

// Round t with its own constant k and word: one contract for every round. m is the block, h the state before it.
fn round(s: State, w: &mut [u32; 16], t: usize, k: u32) -> State
    requires { (t < 64) × (k ≡ F.K t) }
    ensures { (h : State) (m : List ℕ) → At h m t w.old s → At h m (t + 1) w.new result }
{
    let x = word_of(w, t);
    step(s, k, x)
}

// Two rounds, from round t on, with their constants.
fn two(s: State, w: &mut [u32; 16], t: usize, k0: u32, k1: u32) -> State
    requires { (t + 2 ≤ 64) × (k0 ≡ F.K t) × (k1 ≡ F.K (t + 1)) }
    ensures { (h : State) (m : List ℕ) → At h m t w.old s → At h m (t + 2) w.new result }
{
    let s1 = round(s, w, t, k0);
    round(s1, w, t + 1, k1)
}

// All rounds of a block (6.2.2, step 3), with the constants of 4.2.2. Straight-line code, so that every round's number is a constant once the calls are inlined.
#[tactic(auto, unfolding(crate::specs::Sha256::K, crate::specs::Sha256::constants))]
fn rounds(h: State, w: &mut [u32; 16]) -> State
    ensures { (m : List ℕ) → At h m 0 w.old h → At h m 64 w.new result }
{
    let s = two(h, w, 0, 0x428a2f98, 0x71374491);
    let s = two(s, w, 2, 0xb5c0fbcf, 0xe9b5dba5);
    let s = two(s, w, 4, 0x3956c25b, 0x59f111f1);
    let s = two(s, w, 6, 0x923f82a4, 0xab1c5ed5);
    let s = two(s, w, 8, 0xd807aa98, 0x12835b01);
    let s = two(s, w, 10, 0x243185be, 0x550c7dc3);
    let s = two(s, w, 12, 0x72be5d74, 0x80deb1fe);
    let s = two(s, w, 14, 0x9bdc06a7, 0xc19bf174);
    let s = two(s, w, 16, 0xe49b69c1, 0xefbe4786);
    let s = two(s, w, 18, 0x0fc19dc6, 0x240ca1cc);
    let s = two(s, w, 20, 0x2de92c6f, 0x4a7484aa);
    let s = two(s, w, 22, 0x5cb0a9dc, 0x76f988da);
    let s = two(s, w, 24, 0x983e5152, 0xa831c66d);
    let s = two(s, w, 26, 0xb00327c8, 0xbf597fc7);
    let s = two(s, w, 28, 0xc6e00bf3, 0xd5a79147);
    let s = two(s, w, 30, 0x06ca6351, 0x14292967);
    let s = two(s, w, 32, 0x27b70a85, 0x2e1b2138);
    let s = two(s, w, 34, 0x4d2c6dfc, 0x53380d13);
    let s = two(s, w, 36, 0x650a7354, 0x766a0abb);
    let s = two(s, w, 38, 0x81c2c92e, 0x92722c85);
    let s = two(s, w, 40, 0xa2bfe8a1, 0xa81a664b);
    let s = two(s, w, 42, 0xc24b8b70, 0xc76c51a3);
    let s = two(s, w, 44, 0xd192e819, 0xd6990624);
    let s = two(s, w, 46, 0xf40e3585, 0x106aa070);
    let s = two(s, w, 48, 0x19a4c116, 0x1e376c08);
    let s = two(s, w, 50, 0x2748774c, 0x34b0bcb5);
    let s = two(s, w, 52, 0x391c0cb3, 0x4ed8aa4a);
    let s = two(s, w, 54, 0x5b9cca4f, 0x682e6ff3);
    let s = two(s, w, 56, 0x748f82ee, 0x78a5636f);
    let s = two(s, w, 58, 0x84c87814, 0x8cc70208);
    let s = two(s, w, 60, 0x90befffa, 0xa4506ceb);
    two(s, w, 62, 0xbef9a3f7, 0xc67178f2)
}

// The sums that end a block (6.2.2, step 4).
#[tactic(auto, unfolding(crate::specs::Sha256::chain))]
fn chain(h: State, s: State) -> State
    ensures { result ≡ F.chain h s }
{
    State {
        a: h.a.wrapping_add(s.a),
        b: h.b.wrapping_add(s.b),
        c: h.c.wrapping_add(s.c),
        d: h.d.wrapping_add(s.d),
        e: h.e.wrapping_add(s.e),
        f: h.f.wrapping_add(s.f),
        g: h.g.wrapping_add(s.g),
        h: h.h.wrapping_add(s.h),
    }
}

impl BlockHash for State {
    type Digest = [u8; 32];

    ghost start = { F.H0 };

    ghost block = { F.block };

    ghost digest = { F.digest };

    // The state before any block (5.3.3).
    #[tactic(auto, unfolding(crate::specs::Sha256::H0))]
    fn start() -> State {
        State {
            a: 0x6a09e667,
            b: 0xbb67ae85,
            c: 0x3c6ef372,
            d: 0xa54ff53a,
            e: 0x510e527f,
            f: 0x9b05688c,
            g: 0x1f83d9ab,
            h: 0x5be0cd19,
        }
    }

    // A block (6.2.2).
    fn block(self, bytes: &[u8]) -> State {
        let mut w = load(bytes, 0);
        let s = rounds(self, &mut w);
        chain(self, s)
    }

    // The bytes of the eight words (6.2.2).
    #[tactic(auto, unfolding(crate::specs::Sha256::digest, hash_words::specs::Words::bytes4))]
    fn digest(self) -> [u8; 32] {
        let mut out = [0u8; 32];
        put_word(&mut out, 0, self.a);
        put_word(&mut out, 4, self.b);
        put_word(&mut out, 8, self.c);
        put_word(&mut out, 12, self.d);
        put_word(&mut out, 16, self.e);
        put_word(&mut out, 20, self.f);
        put_word(&mut out, 24, self.g);
        put_word(&mut out, 28, self.h);
        out
    }
}

// The state before any block: the trait's, under the name that callers have for it.
pub fn start() -> State
    ensures { result ≡ F.H0 }
{
    State::start()
}

// The SHA-256 of a message.
pub fn sha256(bytes: &[u8]) -> [u8; 32]
    ensures { result ≡ F.sha256 bytes.now }
{
    digest_of::<State>(bytes)
}
