//! Examples of recordings, of words, of runs, of orders, of visibilities and of verdicts, as tests.
#![tactic(auto)]

#[cfg(test)]
mod judgements;
#[cfg(test)]
mod mirror;
#[cfg(test)]
mod orders;
#[cfg(test)]
mod questions;
#[cfg(test)]
mod recordings;
#[cfg(test)]
mod runs;
#[cfg(test)]
mod spelled;
#[cfg(test)]
mod terms;
#[cfg(test)]
mod visibilities;
