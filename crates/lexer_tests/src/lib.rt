//! Tests of calls of the libraries up to `lalrpop_lexer` and `lalrpop_verdicts`, with answers that a person wrote. They are a crate of their
//! own, so that no layer is proved a second time for its tests. A plain run refuses no memory. `.ci/refusals` runs each test of `automata`,
//! `kernels`, `lexers` and `trees` once for each request for memory that it makes, and refuses that one; those of `without` once, where it
//! refuses each request after a sign. The tests of `great` make very many requests, and no new kind of them.
#![tactic(auto)]

#[cfg(test)]
mod automata;
#[cfg(test)]
mod calls;
#[cfg(test)]
mod great;
#[cfg(test)]
mod kernels;
#[cfg(test)]
mod lexers;
#[cfg(test)]
mod parts;
#[cfg(test)]
mod trees;
#[cfg(test)]
mod without;
