// The bench terminal's program for typed patterns, document 02's Job 7: types the text of the file that
// its first argument names, or of standard input if there is none, writes pattern.bin in the folder that
// it is started in, and prints one line.
#![tactic(auto)]

use runner::typist::{type_file, type_input};
use std::env::{Env, FillError};

// One more than the longest path has: a longer argument names no file.
const PATH_BYTES: usize = 4096;

fn main(rt: HostRuntime) {
    let mut path = [0u8; PATH_BYTES];
    match rt.arg(1, &mut path) {
        Ok(n) => type_file(&rt, &path[..n]),
        Err(FillError::TooLong) => type_file(&rt, b""),
        Err(FillError::NotPresent) => type_input(&rt),
    }
}
