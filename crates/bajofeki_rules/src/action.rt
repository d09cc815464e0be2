//! What the token of a rule does to the stack of modes.

/// A step that the token of a rule makes on the stack of modes. Modes are numbered from 0.
///
/// ```
/// use bajofeki_rules::Action;
///
/// let open_comment = [Action::Push(1)];
/// let close_comment = [Action::Pop];
/// ```
#[derive(Clone, Copy, Debug, PartialEq, Eq)]
pub enum Action {
    /// This mode takes the place of the mode on top.
    Mode(usize),
    /// This mode comes on top.
    Push(usize),
    /// The mode on top is taken away. The last one stays.
    Pop,
}
