// Runs the bench program on the folders of samples that samples.txt lists, and the typist on the texts
// that texts.txt lists; docs/SAMPLES.md has their tables. Prints a line for each: its name in the list,
// a colon and what the program prints.
#![tactic(auto)]

ghost use Rattle.std.specs.Prelude.{◌≤◌, length};
ghost use Rattle.io.specs.Counts.{IsPrefixLen};

use std::fs::Files;
use std::io::Print;

// The most bytes of a name of a file.
const PATH_BYTES: usize = 64;

// The most bytes of a list of samples.
const LIST_BYTES: usize = 8192;

// Puts the bytes of part into path from place at on, as far as both go, and answers the place after
// them.
fn append(part: &[u8], path: &mut [u8], at: usize) -> usize
    requires { at ≤ length path.old }
    ensures { IsPrefixLen result path.new }
{
    let n = part.len().min(path.len() - at);
    let end = at + n;
    path[at..end].copy_from_slice(&part[..n]);
    end
}

// The name of a file of a sample: the sample's, and what is behind it.
fn name_of(name: &[u8], behind: &[u8], path: &mut [u8]) -> usize
    ensures { IsPrefixLen result path.new }
{
    let n = append(name, path, 0);
    append(behind, path, n)
}

fn judge_folder<R: Files + Print>(rt: &R, folder: &[u8]) {
    let mut pattern = [0u8; PATH_BYTES];
    let mut proposal = [0u8; PATH_BYTES];
    let n = name_of(folder, b"/pattern.bin", &mut pattern);
    let m = name_of(folder, b"/proposal.bin", &mut proposal);
    runner::run(rt, &pattern[..n], &proposal[..m]);
}

fn type_text<R: Files + Print>(rt: &R, name: &[u8]) {
    let mut text = [0u8; PATH_BYTES];
    let n = name_of(name, b".txt", &mut text);
    runner::typist::type_file(rt, &text[..n]);
}

// Runs each sample of the list in a file, which has a name on each line.
fn listed<R: Files + Print, F: Fn(&R, &[u8])>(rt: &R, path: &[u8], sample: F)
    requires { F.IsAlwaysCallable sample }
{
    // Fixed memory, as the unit has it: no heap.
    let mut list = [0u8; LIST_BYTES];
    let n = runner::load(rt, path, &mut list);
    for line in list[..n].split_inclusive(|&byte| byte == b'\n') {
        let name = line.strip_suffix(b"\n").unwrap_or(line);
        let _ = rt.write_all(name);
        let _ = rt.write_all(b": ");
        sample(rt, name);
    }
}

fn main(rt: HostRuntime) {
    listed(&rt, b"samples.txt", judge_folder);
    listed(&rt, b"texts.txt", type_text);
}
