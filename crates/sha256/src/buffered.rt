// SHA-256 of a message that comes in slices of any length: new, update for each slice, finalize. The hasher is that of hash_words; the names
// and their promises stand here for callers, whom docs/ tell of them.
ghost use Rattle.std.specs.Prelude.{◌≡◌, List, [], ◌++◌, ℕ};
ghost use Rattle.sha256.specs.Buffered.{Absorbed};
ghost use Rattle.sha256.specs.Sha256 as F;

use crate::State;
use hash_words::buffered as generic;

pub type Hasher = generic::Hasher<State>;

// The hasher of the empty message.
pub fn new() -> Hasher
    ensures { Absorbed [] result }
{
    generic::Hasher::new()
}

// The hasher of the message with a slice more.
pub fn update(h: Hasher, bytes: &[u8]) -> Hasher
    ensures { (m : List ℕ) → Absorbed m h → Absorbed (m ++ bytes.now) result }
{
    let mut longer = h;
    longer.update(bytes);
    longer
}

// The SHA-256 of the message.
pub fn finalize(h: Hasher) -> [u8; 32]
    ensures { (m : List ℕ) → Absorbed m h → result ≡ F.sha256 m }
{
    h.finalize()
}
