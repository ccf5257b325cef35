//! Names of files.
use std::alloc::{AllocError, Global};
use std::marker::Model;
use tlv_run::Text;

/// The names of the files that a command line names, in their order.
#[derive(Debug, Drop)]
pub struct FileNames {
    names: Vec<Text>,
}

impl Model for FileNames {
    ghost use Rattle.std.specs.Prelude.{List, ℕ};

    ghost Value = { List (List ℕ) };

    ghost view = { λ f. f.names.items };
}

impl FileNames {
    ghost use Rattle.std.specs.Prelude.{◌≡◌, ◌++◌, ◌∷◌, OnOk, []};

    /// No names. This takes no memory.
    pub fn new(alloc: Global) -> FileNames
        ensures { result ≡ [] }
    {
        FileNames {
            names: Vec::new(alloc),
        }
    }

    /// Adds a name after the others.
    ///
    /// # Errors
    ///
    /// `AllocError` if memory is refused.
    pub fn push(&mut self, alloc: Global, name: &str) -> Result<(), AllocError>
        ensures { OnOk result (self.new ≡ self.old ++ name.now ∷ []) }
    {
        let text = Text::new(alloc, name)?;
        self.names.push(text)?;
        Ok(())
    }

    /// The names, in order.
    pub fn as_slice(&self) -> &[Text]
        ensures { result.now ≡ self.now }
    {
        self.names.as_slice()
    }
}
