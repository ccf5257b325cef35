//! Names of object identifiers.
ghost use Rattle.std.specs.Prelude.{◌≡◌, List, Option, ℕ, option_copied};

/// A table of names of object identifiers.
pub trait NameTable {
    /// The name of each dotted text that has one.
    ghost name_of: { Self → List ℕ → Option (List ℕ) };

    /// The name of the object identifier with this dotted text, if it has one.
    fn get(&self, dotted: &[u8]) -> Option<&[u8]>
        ensures { option_copied result ≡ name_of self.now dotted.now };
}
