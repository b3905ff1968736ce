ghost use Rattle.std.specs.Prelude.{◌≡◌, false, bytes_eq, codes};

/// The row of a word and numbers, which may end with another word. It is no refusal.
#[derive(Drop)]
pub struct NumberRow {
    /// The word that it begins with.
    pub word: &'static [u8],
    /// The numbers after that word.
    pub numbers: Vec<u64>,
    /// The word after the numbers, if there is one.
    pub last: Option<&'static [u8]>,
    ghost no_refusal: { bytes_eq word.now (codes "refused") ≡ false },
}
