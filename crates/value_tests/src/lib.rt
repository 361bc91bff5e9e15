//! Tests of values, answers, places and inputs that no document and no command can make: lists past
//! their limit, texts of inputs past theirs, answers that a launcher may not give, and the count of
//! steps. What a document shows of values is in tests/rows.
#![tactic(auto)]

#[cfg(test)]
mod answers;
#[cfg(test)]
mod counted;
#[cfg(test)]
mod inputs;
#[cfg(test)]
mod places;
#[cfg(test)]
mod values;
#[cfg(test)]
mod written;
