// The listener as `listen --csv FILE`: a row for each value that was read or written.
#![tactic(auto)]

fn main(rt: HostRuntime) {
    listening::run(&rt);
}
