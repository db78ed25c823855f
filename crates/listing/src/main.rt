// The listing program: a catalogue on standard input, its listing on standard output.
#![tactic(auto)]

fn main(rt: HostRuntime) {
    let mut input = rt.reader();
    cli_catalogues::list(&rt, &mut input);
}
