//! Tests of `scatter_plan`: after each answer, in any order, it has what the flow from scratch has.
#![tactic(auto)]

#[cfg(test)]
mod comparing;
#[cfg(test)]
mod documents;
#[cfg(test)]
mod drafts;
#[cfg(test)]
mod numbers;
#[cfg(test)]
mod offering;
#[cfg(test)]
mod running;
