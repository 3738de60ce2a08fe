// The kinds of object names: 1 is SHA-1, 2 is SHA-256. A kind is a number and no enum, since callers in C give any number and are told
// of a kind that there is not.

#![tactic(auto)]

ghost use Rattle.std.specs.Prelude.{◌≡◌, ◌≤◌, take};
ghost use Rattle.kinds.specs.Kinds.{ok_kind, width_of, hash_of};

pub const SHA1: u32 = 1;

pub const SHA256: u32 = 2;

#[tactic(auto, unfolding(crate::specs::Kinds::ok_kind))]
pub fn is_known(kind: u32) -> bool
    ensures { result ≡ ok_kind kind }
{
    matches!(kind, SHA1 | SHA256)
}

// The bytes of an object name and of the checksum.
#[tactic(auto, unfolding(crate::specs::Kinds::width_of))]
pub fn width_of(kind: u32) -> usize
    ensures { (result ≡ width_of kind) × (20 ≤ result) × (result ≤ 32) }
{
    if kind == SHA256 { 32 } else { 20 }
}

// The digest of a message is the first bytes, as many as the kind's width; what is after them is left open.
pub fn digest_of(kind: u32, bytes: &[u8]) -> [u8; 32]
    ensures { take (width_of kind) result ≡ hash_of kind bytes.now }
{
    if kind != SHA256 {
        return widened(hash::sha1(bytes));
    }
    sha256::sha256(bytes)
}

fn widened(digest: [u8; 20]) -> [u8; 32]
    ensures { take 20 result ≡ digest }
{
    let mut wide = [0u8; 32];
    wide[..20].copy_from_slice(&digest);
    wide
}
