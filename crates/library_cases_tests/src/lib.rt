//! Tests of what the library answers where no document and no command line leads, or where no
//! output shows it: the cases that tests/rows cannot say.
#![tactic(auto)]

#[cfg(test)]
mod casts;
#[cfg(test)]
mod documents;
#[cfg(test)]
mod lines;
#[cfg(test)]
mod orders;
#[cfg(test)]
mod texts;
#[cfg(test)]
mod typed;
