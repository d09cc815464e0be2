//! Groups.
ghost use Rattle.std.specs.Prelude.{◌≡◌, option_map, string_bytes};

use super::{Capture, Hir};

impl Capture {
    /// The group of `sub`, with or without a name.
    pub fn new(name: Option<String>, sub: Box<Hir>) -> Capture
        ensures parts { result ≡ record { name = option_map string_bytes name; sub = sub.value } }
    {
        Capture { name, sub }
    }

    /// The group's name, or `None` if it has none.
    pub fn name(&self) -> Option<&str>
        ensures name { option_map (λ s. s.now) result ≡ self.now.name }
    {
        match &self.name {
            None => None,
            Some(name) => Some(name.as_str()),
        }
    }

    /// The part inside the group.
    pub fn sub(&self) -> &Hir
        ensures sub { result.now ≡ self.now.sub }
    {
        &self.sub
    }
}
