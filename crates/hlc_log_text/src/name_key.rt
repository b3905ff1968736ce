use std::hash::{BuildHasher, DefaultHasher, RandomState};

/// The key by which the names of a log are hashed. Names come from strangers: who knows the key can choose names that are looked up one after the
/// other. What is read of a log doesn't depend on it.
#[derive(Clone, Copy)]
pub struct NameKey {
    // The hasher with which each hash begins.
    first: DefaultHasher,
}

impl NameKey {
    ghost use Rattle.hlc_log_text.specs.NameKey.{HashesAs};

    /// The same at each run: for names that nobody chose to do harm.
    pub fn fixed() -> NameKey {
        NameKey {
            first: DefaultHasher::new(),
        }
    }

    /// One that was drawn at random.
    pub fn drawn(state: RandomState) -> NameKey
        ensures { HashesAs state result }
    {
        NameKey {
            first: state.build_hasher(),
        }
    }
}

impl BuildHasher for NameKey {
    type Hasher = DefaultHasher;

    ghost build_hasher = { λ key. key.first };

    fn build_hasher(&self) -> DefaultHasher {
        self.first
    }
}
