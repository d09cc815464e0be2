//! A place in a pattern, with the flags in force there.
ghost use Rattle.std.specs.Prelude.{◌≡◌, ◌<◌, ◌≤◌, ◌++◌, ◌∷◌, [], nat_eq, length, replicate, drop, vec_len, slice_get, unwrap_or, IsTrue, IfOk, OnOk};
ghost use Rattle.std.specs.List.{starts_with};
ghost use Rattle.std.specs.Str.{chars};

use crate::error::{RegexError, SyntaxKind};
use crate::flags::Flags;
use std::alloc::{AllocError, Global};

/// The characters of a pattern, the number of them that are read, and the flags in force.
#[derive(Drop)]
pub(crate) struct Cursor {
    chars: Vec<char>,
    // counts characters
    position: usize,
    flags: Flags,
    // where the named groups opened
    named: Vec<usize>,
    // whether a name in braces names a part
    knows_parts: bool,
    ghost within: { position ≤ vec_len chars },
}

impl Cursor {
    ghost use Rattle.lalrpop_re.specs.Flag.{no_flags};
    ghost use Rattle.lalrpop_re.specs.Internal.Views.{text_from, text, unread, place_of};

    /// The cursor before the first character, with no flag set. `knows_parts` says whether a name in braces names a part.
    #[tactic(auto, unfolding(crate::specs::Internal::Views::text_from), using(std::proofs::lemmas::Str::chars_from_encodes))]
    pub(crate) fn new(alloc: Global, pattern: &str, knows_parts: bool) -> Result<Cursor, AllocError>
        ensures { IfOk result (λ c. (text c ≡ chars pattern.now) × (c.flags ≡ no_flags)) }
    {
        let chars = pattern.chars().collect(alloc)?;
        Ok(Cursor {
            chars,
            position: 0,
            flags: Flags {
                case_insensitive: false,
                dot_matches_new_line: false,
                multi_line: false,
                swap_greed: false,
            },
            named: Vec::new(alloc),
            knows_parts,
        })
    }

    pub(crate) fn alloc(&self) -> Global {
        *self.chars.allocator()
    }

    /// Whether a name in braces names a part.
    pub(crate) fn knows_parts(&self) -> bool {
        self.knows_parts
    }

    /// The number of characters read.
    pub(crate) fn position(&self) -> usize {
        self.position
    }

    /// The characters that are still to be read.
    #[tactic(auto, unfolding(crate::specs::Internal::Views::text_from))]
    pub(crate) fn rest(&self) -> &[char]
        ensures { result.now ≡ text self.now }
    {
        &self.chars[self.position..]
    }

    /// The next character.
    pub(crate) fn peek(&self) -> Option<char>
        ensures { result ≡ slice_get (text self.now) 0 }
    {
        self.rest().first().copied()
    }

    /// Whether the word comes next.
    pub(crate) fn begins(&self, word: &[char]) -> bool
        ensures { result ≡ starts_with nat_eq (text self.now) word.now }
    {
        self.rest().starts_with(word)
    }

    /// Skips this many characters.
    #[tactic(auto, unfolding(crate::specs::Internal::Views::text_from))]
    pub(crate) fn advance(&mut self, count: usize)
        requires { count ≤ unread self.old }
        ensures text { text self.new ≡ drop count (text self.old) }
        ensures flags { self.new.flags ≡ self.old.flags }
    {
        self.position += count;
    }

    pub(crate) fn flags(&self) -> Flags
        ensures { result ≡ self.now.flags }
    {
        self.flags
    }

    pub(crate) fn set_flags(&mut self, flags: Flags)
        ensures text { text self.new ≡ text self.old }
        ensures flags { self.new.flags ≡ flags }
    {
        self.flags = flags;
    }

    /// Records that a named group opened at this place.
    pub(crate) fn note_name(&mut self, place: usize) -> Result<(), AllocError>
        ensures text { text self.new ≡ text self.old }
        ensures flags { self.new.flags ≡ self.old.flags }
        ensures named { OnOk result (self.new.named.items ≡ self.old.named.items ++ place ∷ []) }
    {
        self.named.push(place)?;
        Ok(())
    }

    /// Records that so many named groups stand at this place, in a part.
    pub(crate) fn note_names(&mut self, place: usize, count: usize) -> Result<(), AllocError>
        ensures text { text self.new ≡ text self.old }
        ensures flags { self.new.flags ≡ self.old.flags }
        ensures named { OnOk result (self.new.named.items
            ≡ self.old.named.items ++ replicate count place) }
    {
        for _ in 0..count {
            self.note_name(place)?;
        }
        Ok(())
    }

    /// Where the named group of this number opened.
    pub(crate) fn named_place(&self, number: usize) -> usize
        ensures { result ≡ place_of self.now number }
    {
        let place = self.named.get(number).copied();
        place.unwrap_or(self.position)
    }

    /// The refusal that points at the next character.
    pub(crate) fn error(&self, kind: SyntaxKind) -> RegexError
        ensures { result ≡ RegexError.Syntax self.now.position kind }
    {
        error_at(self.position, kind)
    }
}

/// The refusal that points after this many characters. The call that reads the whole pattern converts them to bytes.
pub(crate) fn error_at(position: usize, kind: SyntaxKind) -> RegexError
    ensures { result ≡ RegexError.Syntax position kind }
{
    RegexError::Syntax { position, kind }
}
