//! The hash functions that name objects.
ghost use Rattle.std.specs.Prelude.{◌≡◌, ◌*◌};
ghost use Rattle.gixobj_hash.specs.Hash.{hash_len};

/// A hash function. A repository uses one of them for all its objects (`gitglossary`, "object format";
/// `git-init`, `--object-format`).
#[derive(Clone, Copy, Debug, Default, PartialEq, Eq, PartialOrd, Ord, Hash)]
pub enum Kind {
    /// SHA-1, git's first object format and its default.
    #[default]
    Sha1,
    /// SHA-256.
    Sha256,
}

impl Kind {
    /// Returns the length of a digest in bytes: 20 or 32. Allocates nothing.
    pub fn len_in_bytes(&self) -> usize
        ensures { result ≡ hash_len self.now }
    {
        match self {
            Kind::Sha1 => 20,
            Kind::Sha256 => 32,
        }
    }

    /// Returns the length of a digest in hex digits: 40 or 64. Allocates nothing.
    pub fn len_in_hex(&self) -> usize
        ensures { result ≡ 2 * hash_len self.now }
    {
        2 * self.len_in_bytes()
    }
}
