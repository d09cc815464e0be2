//! Tests of the calls of `tokens_lib` that read and write, over readers and writers that give and take little and fail. What the program
//! writes and says where nothing fails is shown by examples/sessions. They are a crate of their own, so that no layer is proved a second
//! time for its tests.
#![tactic(auto)]

#[cfg(test)]
mod coming;
#[cfg(test)]
mod cutting;
#[cfg(test)]
mod program;
#[cfg(test)]
mod written;
