//! A counter that takes no memory.
ghost use Rattle.std.specs.Prelude.{◌≡◌, ℕ, ◌+◌};
ghost use Rattle.std.specs.Borrow.{ftrue};

use std::marker::Model;

// A number that only contracts read. It takes no bytes.
#[derive(Drop)]
struct Tally {
    ghost taken: { ℕ },
}

impl Model for Tally {
    ghost also_owns = { λ _. ftrue };
}

impl Tally {
    fn new() -> Tally
        ensures { result.taken ≡ 0 }
    {
        Tally {}
    }

    fn add_one(&mut self)
        ensures { self.new.taken ≡ self.old.taken + 1 }
    {}
}

/// The number of steps taken, which contracts read and a running program cannot. It takes no bytes, and only
/// its calls change it.
///
/// ```
/// use lalrpop_lexer::lexer::dfa::interpret::interpret_counted;
/// use lalrpop_lexer::lexer::nfa::Steps;
///
/// let mut steps = Steps::new();
/// let found = interpret_counted(&dfa, "let x", &mut steps); // its clauses bound `steps`
/// ```
#[derive(Drop)]
pub struct Steps {
    tally: Tally,
}

impl Model for Steps {
    ghost Value = { ℕ };

    ghost view = { λ s. s.tally.taken };
}

impl Steps {
    /// No steps yet.
    pub fn new() -> Steps
        ensures value { result ≡ 0 }
    {
        Steps {
            tally: Tally::new(),
        }
    }

    /// Counts one step. It does nothing when it runs.
    pub fn tick(&mut self)
        ensures counted { self.new ≡ self.old + 1 }
    {
        self.tally.add_one();
    }
}
