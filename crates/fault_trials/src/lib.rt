//! Trials of faults: each call of a run's files and each of a link fails in turn, and what is due is told by the phases that end
//! before it. What is played and what is to come of it is data.
#![tactic(auto)]

#[cfg(test)]
mod file_tests;
#[cfg(test)]
mod link_tests;
#[cfg(test)]
mod outside;
