//! `kakreplay <kind>..`: lines of many clients over standard input, and the reports of their user interfaces over standard
//! output.
#![tactic(auto)]

use disk_files::DiskFiles;
use host_words::{NoWords, words_given};
use kak_app::{Status, replay};
use kak_engine::FilesAndPatterns;
use kak_ports::{ReadSource, WriteSink};
use regex_ports::RegexMaker;
use std::alloc::{AllocError, Global};
use std::process::ExitCode;
use ui_board::{JsonUi, ScreenUi, SilentUi, Ui};

// Replays standard input, with the files of the disk. Each word that is a kind has a user interface made.
fn replay_with(rt: &HostRuntime, words: &[String]) -> Result<Status, AllocError> {
    let alloc = rt.alloc();
    let mut uis: Vec<Box<dyn Ui>> = Vec::new(alloc);
    for word in words {
        if word.as_str() == "json" {
            uis.push(Box::new(alloc, JsonUi::new(alloc))?)?;
        } else if word.as_str() == "silent" {
            uis.push(Box::new(alloc, SilentUi::new(alloc))?)?;
        } else if word.as_str() == "screen" {
            uis.push(Box::new(alloc, ScreenUi::new(alloc))?)?;
        }
    }
    let mut input = ReadSource::new(rt.stdin());
    let mut output = WriteSink::new(rt.stdout());
    let (status, _outside, _board) = replay(
        alloc,
        words,
        &mut input,
        &mut output,
        FilesAndPatterns::new(DiskFiles::new(rt, alloc), RegexMaker::new()),
        uis,
    );
    Ok(status)
}

fn main(rt: HostRuntime) -> ExitCode {
    let status = match words_given(&rt) {
        Ok(words) => replay_with(&rt, words.as_slice()).unwrap_or(Status::NoMemory),
        Err(NoWords::NotUtf8) => Status::Usage,
        Err(NoWords::NoMemory) => Status::NoMemory,
    };
    ExitCode::from(status.code())
}
