// Document 01's bench program: judges the files pattern.bin and proposal.bin of the folder that it is
// started in, and prints one line.
#![tactic(auto)]

fn main(rt: HostRuntime) {
    runner::run(&rt, b"pattern.bin", b"proposal.bin");
}
