//! Trials of the edge: files of the disk, links over sockets and in memory, jobs in threads, gates, and lines that are
//! read.
#![tactic(auto)]

#[cfg(test)]
mod client_links_tests;
#[cfg(test)]
mod disk_files_tests;
#[cfg(test)]
mod jobs_tests;
#[cfg(test)]
mod line_gates_tests;
#[cfg(test)]
mod line_reading_tests;
#[cfg(test)]
mod unix_links_tests;
