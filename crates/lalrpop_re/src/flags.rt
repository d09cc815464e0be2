//! The flags of a pattern.

/// The flags under which a part of a pattern is read. Reading begins with none set.
#[derive(Clone, Copy, Debug, PartialEq, Eq)]
pub struct Flags {
    /// `i`: each leaf stands for all characters that share a simple case folding with one of its own.
    pub case_insensitive: bool,
    /// `s`: `.` matches the line feed too.
    pub dot_matches_new_line: bool,
    /// `m`: `^` and `$` match at the start and the end of each line.
    pub multi_line: bool,
    /// `U`: operators are lazy, and greedy if a `?` follows.
    pub swap_greed: bool,
}
