//! The words of a command line.
use crate::usage::UsageFault;
use std::alloc::Global;
use std::marker::Model;

/// The words of a command line, the program's name first.
#[derive(Drop)]
pub struct Words {
    alloc: Global,
    words: Vec<String>,
}

impl Model for Words {
    ghost use Rattle.std.specs.Prelude.{List, map, ℕ};
    ghost use Rattle.std.specs.String.{string_bytes};

    ghost Value = { List (List ℕ) };

    ghost view = { λ w. map string_bytes w.words.items };
}

impl Words {
    ghost use Rattle.std.specs.Prelude.{◌≡◌, ◌++◌, ◌∷◌, IfErr, OnErr, OnOk, [], map};
    ghost use Rattle.std.specs.String.{string_bytes};

    /// No words. This takes no memory.
    pub fn new(alloc: Global) -> Words
        ensures { result ≡ [] }
    {
        Words {
            alloc,
            words: Vec::new(alloc),
        }
    }

    /// Adds a word after the others.
    ///
    /// # Errors
    ///
    /// `Memory` if memory is refused. The words are then as before.
    pub fn push(&mut self, word: &str) -> Result<(), UsageFault>
        ensures ok { OnOk result (self.new ≡ self.old ++ word.now ∷ []) }
        ensures err { OnErr result (self.new ≡ self.old) }
        ensures memory { IfErr result (λ fault. fault ≡ UsageFault.Memory) }
    {
        let Ok(text) = String::from_str(self.alloc, word) else {
            return Err(UsageFault::Memory);
        };
        match self.words.push(text) {
            Ok(()) => Ok(()),
            Err(_) => Err(UsageFault::Memory),
        }
    }

    /// The words, in order.
    pub fn as_slice(&self) -> &[String]
        ensures { map string_bytes result.now ≡ self.now }
    {
        self.words.as_slice()
    }
}
