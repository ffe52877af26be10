//! Trials of clients at one desk, of single links, and of a whole server, in turn and over threads. What they play and what is
//! to come of it is data; whatever has contracts is called by one function each, which leaves plain data.
#![tactic(auto)]

#[cfg(test)]
mod desk_tests;
#[cfg(test)]
mod link_tests;
#[cfg(test)]
mod outside;
#[cfg(test)]
mod server_tests;
