//! The program: `command` of pk_command, with the words, the input and the output of its process.
//! What it prints, its statuses and its reasons stand there.
#![tactic(auto)]

use pk_command::{command, refuse_words};
use std::alloc::Global;
use std::io;
use std::process::ExitCode;

fn main(mut rt: HostRuntime) -> ExitCode {
    let alloc = rt.alloc();
    keep_freed_memory(alloc);
    let mut input = rt.stdin();
    let mut output = rt.stdout();
    let mut faults = rt.stderr();
    let status = match words_of(&rt, alloc) {
        Ok(words) => {
            let words = words.as_slice();
            let (status, _) = command(&mut rt, alloc, words, &mut input, &mut output, &mut faults);
            status
        }
        Err(error) => refuse_words(error.kind(), &mut faults),
    };
    ExitCode::from(status)
}

/// The words of the command line, the program's name first.
fn words_of(rt: &HostRuntime, alloc: Global) -> io::Result<Vec<String>> {
    Ok(std::env::args(rt)?.collect(alloc)?)
}

/// Has GNU's malloc keep 2 MiB or more of what is let go. It gives free memory at the end of its heap
/// back to the system from 128 KiB on, and a commit would take what the one before it let go anew,
/// page by page. Once a block is let go that had a mapping of its own, this limit is twice its length
/// (mallopt(3), `M_MMAP_THRESHOLD`). Where the block is refused, the limit stays as it is.
fn keep_freed_memory(alloc: Global) {
    let _ = Vec::<u8>::with_capacity(alloc, 1 << 20);
}
