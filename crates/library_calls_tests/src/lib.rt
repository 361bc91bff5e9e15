//! Tests of the calls that the program does not make, in a crate of their own: the gate proves a
//! crate once more for the tests in it.
#![tactic(auto)]

#[cfg(test)]
mod expressions;
#[cfg(test)]
mod fields;
#[cfg(test)]
mod filling;
#[cfg(test)]
mod migration;
#[cfg(test)]
mod notation;
#[cfg(test)]
mod orders;
#[cfg(test)]
mod tools;
