//! Trials of the engine, event by event, of what its outside is asked for, of what a client is drawn of a world, of what
//! refusals print, of texts that are rescued, of whole runs for one client and of generated sessions, of a client's JSON lines, and of
//! lines of a replay.
//! What they play and what is to come of it is data; what lines of input can say is played by the end-to-end checks.
#![tactic(auto)]

#[cfg(test)]
mod client_lines;
#[cfg(test)]
mod draw_tests;
#[cfg(test)]
mod engine_scripts;
#[cfg(test)]
mod engine_tests;
#[cfg(test)]
mod fault_tests;
#[cfg(test)]
mod gen_tests;
#[cfg(test)]
mod json_tests;
#[cfg(test)]
mod lagging_tests;
#[cfg(test)]
mod outside_tests;
#[cfg(test)]
mod refusal_tests;
#[cfg(test)]
mod rescue_tests;
#[cfg(test)]
mod run_tests;
#[cfg(test)]
mod written_tests;
