// Document 01's bench program on two files: it reads a pattern and a proposal, and writes the line of
// what judging the proposal finds. The line is proved of the bytes that were read (`report`); what
// reading and writing do is not. `typist` has the like of a typed pattern.
#![tactic(auto)]

pub mod typist;

ghost use Rattle.io.specs.Counts.{IsPrefixLen};

use report::{LINE_BYTES, line_for};
use std::fs::{File, Files};
use std::io::{Print, Read};
use std::str;

// The bytes that are read of each file: one more than the longest pattern has, and than the longest
// proposal, a tableau, has, so that a longer file is refused for its length.
const PATTERN_BYTES: usize = 1027;

const PROPOSAL_BYTES: usize = 24585;

// Reads to the start of the buffer until it is full, the input ends or a read fails, and answers how
// many bytes were read.
fn read_full<R: Read>(input: &mut R, buf: &mut [u8]) -> usize
    ensures { IsPrefixLen result buf.new }
{
    let mut done = 0;
    // No `read_exact`: where the input ends early, it doesn't say how many bytes it read.
    while done < buf.len() {
        match input.read(&mut buf[done..]) {
            Ok(0) | Err(_) => break,
            Ok(n) => done += n,
        }
    }
    done
}

// Reads the file to the start of the buffer, as far as both go, and answers how many bytes were
// read. A file that can't be opened counts as empty, and so does one whose path isn't UTF-8.
pub fn load<R: Files>(rt: &R, path: &[u8], buf: &mut [u8]) -> usize
    ensures { IsPrefixLen result buf.new }
{
    let Ok(path) = str::from_utf8(path) else {
        return 0;
    };
    let Ok(mut file) = File::open(rt, path) else {
        return 0;
    };
    read_full(&mut file, buf)
}

// Reads the two files, judges the proposal and writes the line.
pub fn run<R: Files + Print>(rt: &R, pattern: &[u8], proposal: &[u8]) {
    // Fixed memory, as the unit has it: no heap.
    let mut p = [0u8; PATTERN_BYTES];
    let mut d = [0u8; PROPOSAL_BYTES];
    let n = load(rt, pattern, &mut p);
    let m = load(rt, proposal, &mut d);
    let mut line = [0u8; LINE_BYTES];
    let k = line_for(&p[..n], &d[..m], &mut line);
    let _ = rt.write_all(&line[..k]);
}
