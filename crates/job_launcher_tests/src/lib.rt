//! Tests of the launcher of real commands, in a crate of their own: the gate
//! proves a crate once more for the tests in it.
#![tactic(auto)]

#[cfg(test)]
mod answers;
#[cfg(test)]
mod folders;
#[cfg(test)]
mod launching;
