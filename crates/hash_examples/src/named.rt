// The functions of a hash by the names that callers have for them: those of the crates hash and sha256, and not the generic ones below.
use hash_words::block_hash::BlockHash;
use hash_words::buffered::Hasher;

pub trait Named: BlockHash {
    fn whole(message: &[u8]) -> Self::Digest;

    fn first() -> Self;

    fn new() -> Hasher<Self>;

    fn update(h: Hasher<Self>, bytes: &[u8]) -> Hasher<Self>;

    fn finalize(h: Hasher<Self>) -> Self::Digest;
}

impl Named for hash::State {
    fn whole(message: &[u8]) -> [u8; 20] {
        hash::sha1(message)
    }

    fn first() -> hash::State {
        hash::start()
    }

    fn new() -> hash::buffered::Hasher {
        hash::buffered::new()
    }

    fn update(h: hash::buffered::Hasher, bytes: &[u8]) -> hash::buffered::Hasher {
        hash::buffered::update(h, bytes)
    }

    fn finalize(h: hash::buffered::Hasher) -> [u8; 20] {
        hash::buffered::finalize(h)
    }
}

impl Named for sha256::State {
    fn whole(message: &[u8]) -> [u8; 32] {
        sha256::sha256(message)
    }

    fn first() -> sha256::State {
        sha256::start()
    }

    fn new() -> sha256::buffered::Hasher {
        sha256::buffered::new()
    }

    fn update(h: sha256::buffered::Hasher, bytes: &[u8]) -> sha256::buffered::Hasher {
        sha256::buffered::update(h, bytes)
    }

    fn finalize(h: sha256::buffered::Hasher) -> [u8; 32] {
        sha256::buffered::finalize(h)
    }
}
