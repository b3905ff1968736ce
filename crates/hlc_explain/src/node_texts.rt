use std::alloc::AllocError;

/// How nodes are spelled.
pub trait NodeTexts {
    ghost use Rattle.std.specs.Prelude.{◌≡◌, ◌++◌, ℕ, List, OnOk};

    // The text of each node, by its number.
    ghost text_of: { Self → ℕ → List ℕ };

    /// Adds the text of the node of a number.
    fn put_node(&self, text: &mut Vec<u8>, number: usize) -> Result<(), AllocError>
        ensures { OnOk result (text.new.items ≡ text.old.items ++ text_of self.now number) };
}
