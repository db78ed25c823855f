// What `raghymtos help` and `raghymtos nearest` write: a program has one compared output, and that of `raghymtos` is for reductions.
#![tactic(auto)]

fn main(rt: HostRuntime) {
    cli_commands::run(&rt, b"help", b"", b"", b"", false);
    cli_commands::run(&rt, b"nearest", b"", b"", b"", false);
}
