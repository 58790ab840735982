//! A secret that hashes begin with.

use std::hash::{BuildHasher, DefaultHasher, Hasher};
use std::io;
use std::random::RandomSource;

/// A secret, drawn once, with which each hash of a client's key begins: a client that does not know
/// it can't choose keys whose hashes are alike. The hash is SipHash-1-3. No contract speaks of
/// hashes: whatever they are, answers are the same.
#[derive(Clone, Copy, Drop)]
pub struct HashSeed {
    // What has taken in the secret.
    begun: DefaultHasher,
}

impl HashSeed {
    /// A seed of 32 bytes from a source of random ones.
    ///
    /// # Errors
    ///
    /// What the source refuses with.
    pub fn new(rt: &impl RandomSource) -> io::Result<HashSeed> {
        let mut secret = [0; 32];
        rt.fill_bytes(&mut secret)?;
        let mut begun = DefaultHasher::new();
        begun.write(&secret);
        Ok(HashSeed { begun })
    }
}

impl BuildHasher for HashSeed {
    type Hasher = DefaultHasher;

    ghost build_hasher = { λ seed. seed.begun };

    fn build_hasher(&self) -> DefaultHasher {
        self.begun
    }
}
