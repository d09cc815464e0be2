//! The word of a clash.
ghost use Rattle.std.specs.Prelude.{◌≡◌, Some, flat_map, nat_eq};
ghost use Rattle.std.specs.Cmp.{partial_equiv_from_equiv};
ghost use Rattle.std.specs.Cmp.Lexicographic.{pointwise, nat_list_eq_equiv};
ghost use Rattle.lexdfa_lib.specs.Word.{value_text};

use std::fmt;
use std::marker::Model;

/// A word: the code values of its characters, in order. Two words are equal if their values are.
///
/// ```
/// use lexdfa_lib::Word;
///
/// let word = Word::new(vec![in alloc; 97, 98]?);
/// let line = format!(in alloc; "{word}")?; // " 61 62"
/// ```
#[derive(Debug, Drop)]
pub struct Word {
    values: Vec<u32>,
}

impl Model for Word {
    ghost use Rattle.std.specs.Prelude.{ℕ, List};

    ghost Value = { List ℕ };

    ghost view = { λ w. w.values.items };
}

impl Word {
    /// The word with these values.
    pub fn new(values: Vec<u32>) -> Word
        ensures values { result ≡ values.items }
    {
        Word { values }
    }

    /// The values.
    pub fn values(&self) -> &[u32]
        ensures values { result.now ≡ self.now }
    {
        &self.values
    }

    /// Returns the values. It takes no memory.
    pub fn into_vec(self) -> Vec<u32>
        ensures values { result.items ≡ self }
    {
        let Word { values } = self;
        values
    }
}

/// Each value after a space, in lower-case hexadecimal.
impl fmt::Display for Word {
    ghost output = { λ word. Some (flat_map value_text word) };

    fn fmt<W: fmt::Write>(&self, f: &mut fmt::Formatter<W>) -> fmt::Result {
        for value in self.values() {
            write!(f, " {value:x}")?;
        }
        Ok(())
    }
}

impl PartialEq for Word {
    ghost eq = { pointwise nat_eq };

    ghost laws = { partial_equiv_from_equiv nat_list_eq_equiv };

    fn eq(&self, other: &Word) -> bool {
        self.values() == other.values()
    }
}

impl Eq for Word {
    ghost laws = { nat_list_eq_equiv };
}
