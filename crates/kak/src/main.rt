//! `kak -ui json [file]`: one client over standard input and output. `kak gen CLIENTS KEYS SEED`: a generated session, whose
//! summary goes to standard output.
#![tactic(auto)]

use disk_files::DiskFiles;
use host_words::{NoWords, words_given};
use kak_app::{Status, run};
use kak_engine::FilesAndPatterns;
use kak_ports::{ReadSource, WriteSink};
use regex_ports::RegexMaker;
use std::process::ExitCode;

// Runs the program over its standard input and output, with the files of the disk.
fn run_with(rt: &HostRuntime, words: &[String]) -> Status {
    let mut input = ReadSource::new(rt.stdin());
    let mut output = WriteSink::new(rt.stdout());
    let (status, _outside) = run(
        rt.alloc(),
        words,
        &mut input,
        &mut output,
        FilesAndPatterns::new(DiskFiles::new(rt, rt.alloc()), RegexMaker::new()),
    );
    status
}

fn main(rt: HostRuntime) -> ExitCode {
    let status = match words_given(&rt) {
        Ok(words) => run_with(&rt, words.as_slice()),
        Err(NoWords::NotUtf8) => Status::Usage,
        Err(NoWords::NoMemory) => Status::NoMemory,
    };
    ExitCode::from(status.code())
}
