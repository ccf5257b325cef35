//! The pairs of digits of all octets.
ghost use Rattle.std.specs.Prelude.{◌≡◌, ◌∷◌, [], true};
ghost use Rattle.hex.specs.Hex.{encode_lower};
ghost use Rattle.tlv_io.specs.Private.PairTable.{AreAllPairs};

/// The pair of digits of each octet, as `hex` wrote it when the table was filled. To look up a pair takes fewer
/// instructions than to call `hex`. The table is filled before it is first used: many an `Out` writes a message or a
/// title, which has no pairs.
#[derive(Drop)]
pub(super) struct PairTable {
    pairs: [[u8; 2]; 256],
    is_filled: bool,
    ghost all: { is_filled ≡ true → AreAllPairs pairs },
}

impl PairTable {
    /// A table that is not filled.
    pub fn new() -> PairTable {
        PairTable {
            pairs: [[0; 2]; 256],
            is_filled: false,
        }
    }

    /// Fills the table, unless it is filled.
    #[inline(always)]
    pub fn fill(&mut self)
        ensures { self.new.is_filled ≡ true }
    {
        if !self.is_filled {
            self.fill_now();
        }
    }

    #[cold]
    #[inline(never)]
    fn fill_now(&mut self)
        ensures { self.new.is_filled ≡ true }
    {
        self.pairs = all_pairs();
        self.is_filled = true;
    }

    /// The pair of digits of an octet. Requires a table that is filled.
    #[inline(always)]
    pub fn pair(&self, octet: u8) -> [u8; 2]
        requires { self.now.is_filled ≡ true }
        ensures { result ≡ encode_lower (octet ∷ []) }
    {
        self.pairs[usize::from(octet)]
    }
}

/// The pairs of all octets. It has two loops since the compiler then knows the second digits, which saves half of the
/// instructions.
fn all_pairs() -> [[u8; 2]; 256]
    ensures { AreAllPairs result }
{
    let mut pairs = [[0; 2]; 256];
    for high in 0..16 {
        for low in 0..16 {
            let octet = 16 * high + low;
            let _ = hex::encode_to_slice([octet as u8], &mut pairs[octet]);
        }
    }
    pairs
}
