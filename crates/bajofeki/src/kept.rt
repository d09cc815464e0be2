//! What is kept of a piece.

ghost use Rattle.std.specs.Prelude.{◌≡◌, ◌^◌, ◌<◌};
ghost use Rattle.bajofeki.specs.Internal.Kept.{reach_of};

/// The rule of a fault.
pub(crate) const FAULT: u32 = u32::MAX;

/// What is kept of a piece: neither its text nor its place.
#[derive(Clone, Copy, Debug, PartialEq, Eq)]
pub(crate) struct Kept {
    // The index of its rule; `FAULT` in a fault.
    pub(crate) rule: u32,
    // How many bytes it has.
    pub(crate) size: u32,
    // How many bytes after it it depends on at most; one more than there are if it depends on where the text ends.
    pub(crate) past: u32,
}

impl Kept {
    /// How many bytes from its beginning on it depends on at most.
    pub(crate) fn reach(&self) -> usize
        ensures reach { result ≡ reach_of self.now }
        ensures small { result < 2 ^ 33 }
    {
        self.size as usize + self.past as usize
    }
}
