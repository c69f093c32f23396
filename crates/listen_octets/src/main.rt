// The listener as `listen --octets FILE`: each line with the 16 octets of its report.
#![tactic(auto)]

fn main(rt: HostRuntime) {
    listening::run(&rt);
}
