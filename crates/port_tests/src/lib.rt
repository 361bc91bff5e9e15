//! Tests of the outside in memory and of the rows of a journal. They stand in a crate of their own,
//! since the gate proves a crate once more for the tests in it.
#![tactic(auto)]

#[cfg(test)]
mod memory;
#[cfg(test)]
mod rows;
