// A hash by blocks of 64 bytes, over any state: a message in one call, or in pieces: absorb for each piece of whole blocks, then finish.

ghost use Rattle.std.specs.Prelude.{◌≡◌, List, ℕ, ◌/◌, length};
ghost use Rattle.hash_words.specs.Blocks as B;
ghost use Rattle.hash_words.specs.Words.{words};

use crate::tail;

// The hash value between blocks.
pub trait BlockHash: Copy {
    type Digest;

    ghost start: { Self };

    // The state after a block of sixteen words.
    ghost block: { Self → List ℕ → Self };

    ghost digest: { Self → Self.Digest };

    // The state before any block.
    fn start() -> Self
        ensures { result ≡ start };

    // The state after a block.
    fn block(self, bytes: &[u8]) -> Self
        requires { length bytes.now ≡ 64 }
        ensures { result ≡ block self (words bytes.now 0 16) };

    // The bytes of the state.
    fn digest(self) -> Self::Digest
        ensures { result ≡ digest self };
}

// The state after every whole block of a piece. Bytes after the last whole block are not read.
pub fn absorb<S: BlockHash>(h: S, bytes: &[u8]) -> S
    ensures { result ≡ B.absorb S.block h bytes.now (length bytes.now / 64) }
{
    let mut s = h;
    for block in bytes.chunks_exact(64) {
        s = s.block(block);
    }
    s
}

// The digest of a message of length bytes whose last piece is rest, from the state after the whole blocks before it.
pub fn finish<S: BlockHash>(h: S, rest: &[u8], length: u64) -> S::Digest
    ensures { result ≡ B.finish S.block S.digest h rest.now length }
{
    let g = absorb(h, rest);
    let t = tail(rest, length);
    let end: usize = if rest.len() % 64 < 56 { 64 } else { 128 };
    absorb(g, &t[..end]).digest()
}

// The digest of a message.
pub fn digest_of<S: BlockHash>(bytes: &[u8]) -> S::Digest
    ensures { result ≡ B.digest_of S.block S.start S.digest bytes.now }
{
    finish(S::start(), bytes, bytes.len() as u64)
}
