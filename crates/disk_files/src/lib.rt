//! The files of the disk: the edge of what is proved. They tell nothing of what they hold.
#![tactic(auto)]

pub mod disk;

pub use disk::DiskFiles;
