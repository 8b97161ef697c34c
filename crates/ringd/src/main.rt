//! The program `ringd`: it keeps the rings of an object store, and carries out each numbered
//! request once.
#![tactic(auto)]

mod performing;

use crate::performing::perform_over_files;
use byte_streams::{CountedReader, CountedWriter};
use file_stores::StoreFiles;
use sqlite::Unknown;
use std::alloc::AllocError;
use std::env;
use std::io::ErrorKind;
use std::process::ExitCode;

fn main(rt: HostRuntime) -> ExitCode {
    let words: Result<Vec<String>, _> = match env::args(&rt) {
        Ok(words) => words.collect(rt.alloc()),
        Err(error) if error.kind() == ErrorKind::OutOfMemory => Err(AllocError),
        Err(_) => Ok(Vec::new(rt.alloc())),
    };
    let Ok(words) = words else {
        let _ = eprintln!(rt; "ringd: NoMemory 23");
        return ExitCode::FAILURE;
    };
    let mut reader = CountedReader::new(rt.reader());
    let mut writer = CountedWriter::new(rt.stdout());
    let mut errors = CountedWriter::new(rt.stderr());
    let mut stores: StoreFiles<Unknown> = StoreFiles::new();
    let status = perform_over_files(
        &rt,
        &words,
        &mut reader,
        &mut writer,
        &mut errors,
        &mut stores,
    );
    ExitCode::from(status)
}
