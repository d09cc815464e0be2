//! What follows for a partition and for two runs from the laws for callers, which the proofs here cite.
ghost use Rattle.std.specs.Prelude.{ℕ, ◌≡◌, ◌+◌, ◌≤◌, ◌↔◌, ◌⊎◌, List, [], ◌∷◌, ◌-◌, ◌*◌, IfOk, length};
ghost use Rattle.std.specs.List.{Contains, count_by};
ghost use Rattle.std.specs.Option.{option_map};
ghost use Rattle.lalrpop_hir.specs.Range.{Range, Covers};
ghost use Rattle.lalrpop_hir.specs.Tree.{Tree};
ghost use Rattle.lalrpop_build.specs.Agree.{Agree};
ghost use Rattle.lalrpop_nfa.specs.Compiled.{IsCompiled};
ghost use Rattle.lalrpop_nfa.specs.Partition.{Alike, IsCovered, IsUniform, has_value};
ghost use Rattle.lalrpop_dfa.specs.Dfa.{Recognizes};

use lalrpop_dfa::Dfa;
use lalrpop_dfa::interpret::interpret;
use lalrpop_hir::NfaIndex;
use lalrpop_nfa::interpret::interpret as run_alone;
use lalrpop_nfa::overlap::remove_overlap;
use lalrpop_nfa::{Nfa, Test};
use std::alloc::{AllocError, Global};
use std::collections::BTreeSet;

/// The blocks of the ranges. Each holds a value, no two share one, and together they hold the values of the ranges; each
/// lies in a range or outside it, and is as large as it can be.
// Needs lalrpop_nfa::remove_overlap: partition, count.
pub fn blocks_of(alloc: Global, ranges: &BTreeSet<Test>) -> Result<Vec<Test>, AllocError>
    ensures few { IfOk result (λ blocks.
        length blocks.items ≤ 2 * count_by has_value ranges.now.keys - 1) }
    ensures some { IfOk result (λ blocks. (x : Range) → Contains blocks.items x
        → x.start ≤ x.end) }
    ensures disjoint { IfOk result (λ blocks. (x y : Range) (c : ℕ) → Contains blocks.items x
        → Contains blocks.items y → Covers x c → Covers y c → x ≡ y) }
    ensures cover { IfOk result (λ blocks. (c : ℕ)
        → IsCovered (Contains blocks.items) c ↔ IsCovered (Contains ranges.now.keys) c) }
    ensures in_or_out { IfOk result (λ blocks. (x r : Range) → Contains blocks.items x
        → Contains ranges.now.keys r
        → ((c : ℕ) → Covers x c → Covers r c) ⊎ ((c : ℕ) → Covers x c → ¬ Covers r c)) }
    ensures unjoined { IfOk result (λ blocks. (x y z : Range) → Contains blocks.items x
        → Contains blocks.items y → IsUniform (Contains ranges.now.keys) z
        → z.start ≤ x.start → x.end ≤ z.end → z.start ≤ y.start → y.end ≤ z.end → x ≡ y) }
    ensures apart { IfOk result (λ blocks. (x y : Range) → Contains blocks.items x
        → Contains blocks.items y → x.end + 1 ≡ y.start
        → ¬ Alike (Contains ranges.now.keys) x.end y.start) }
{
    remove_overlap(alloc, ranges)
}

/// What the automaton of one tree finds in a text, and what the automaton of a list of just this tree finds: the same.
pub fn found_by_both<'text>(
    alloc: Global,
    nfa: &Nfa,
    dfa: &Dfa,
    text: &'text str,
) -> Result<(Option<&'text str>, Option<(NfaIndex, &'text str)>), AllocError>
    ensures agree { IfOk result (λ both. (t : Tree) (ps : List ℕ) → IsCompiled t nfa.now
        → Recognizes dfa.now (t ∷ []) ps → Agree (option_map (λ s. s.now) both.0)
        (option_map (λ m. (m.0, m.1.now)) both.1)) }
{
    let alone = run_alone(alloc, nfa, text)?;
    let of_list = interpret(dfa, text);
    Ok((alone, of_list))
}
