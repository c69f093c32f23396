// The listener: a capture from a file or standard input, a line for each report or a table of values.
#![tactic(auto)]

fn main(rt: HostRuntime) {
    listening::run(&rt);
}
