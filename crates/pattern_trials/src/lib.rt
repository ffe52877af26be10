//! Trials of patterns: what they find in texts, and which selections are made by them.
#![tactic(auto)]

#[cfg(test)]
mod regex_ports_tests;
#[cfg(test)]
mod regex_select_tests;
