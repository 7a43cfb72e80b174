// Marks the script on standard input: one line per record on standard output.
#![tactic(auto)]

fn main(rt: HostRuntime) {
    marking_io::mark_input(&rt);
}
