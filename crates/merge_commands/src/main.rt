// What `raghymtos merge` answers: each rule of an addition, a lookup and a closing on one merge, then the same once it is closed.
#![tactic(auto)]

fn main(rt: HostRuntime) {
    cli_commands::run(&rt, b"merge", b"", b"", b"", false);
}
