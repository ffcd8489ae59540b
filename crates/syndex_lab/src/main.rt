//! The program `syndex_lab`: its top call over real files, standard output and standard error.
#![tactic(auto)]

use lab_program::{Status, syndex_lab};
use outside::write_whole;
use real_edge::{ErrSink, FileShelf, StdSink, words_of};
use std::process::ExitCode;

/// Carries out the command of the words and ends with the number of its status. Where there is not enough memory for
/// the words themselves, the line of that status is written here.
fn main(rt: HostRuntime) -> ExitCode {
    let mut shelf = FileShelf::new(&rt);
    let mut out = StdSink::new(&rt);
    let mut err = ErrSink::new(&rt);
    let status = match words_of(&rt) {
        Ok(words) => syndex_lab(rt.alloc(), words.as_slice(), &mut shelf, &mut out, &mut err),
        Err(_) => {
            let _ = write_whole(&mut err, b"out of memory\n");
            Status::OutOfMemory
        }
    };
    ExitCode::from(status.number())
}
