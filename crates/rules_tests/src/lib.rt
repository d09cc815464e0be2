//! Tests of calls of the libraries of rules, with answers that a person wrote; and of `lexdfa_lib`: bytes of every kind, and ends that fail.
//! What the programs write and say where nothing fails, and the messages of `reports_lib`, are shown by examples/sessions. A plain run
//! refuses no memory. `.ci/refusals` runs each test once for each request for memory that it makes, and refuses that one; those of `without`
//! once, where it refuses each request after a sign. The tests of `great` and `streams` make very many requests, and no new kind of them.
#![tactic(auto)]

#[cfg(test)]
mod calls;
#[cfg(test)]
mod emit;
#[cfg(test)]
mod files;
#[cfg(test)]
mod great;
#[cfg(test)]
mod rules;
#[cfg(test)]
mod streams;
#[cfg(test)]
mod texts;
#[cfg(test)]
mod without;
