// The command line: the first word says what to do.
#![tactic(auto)]

ghost use Rattle.std.specs.Prelude.{◌≤◌, length};

use std::env::{Env, FillError};

// An argument, empty where there is none or the buffer has no room for it.
fn argument<'a>(rt: &impl Env, i: usize, buffer: &'a mut [u8]) -> &'a [u8]
    ensures { length result.now ≤ length buffer.old }
{
    let n = rt.arg(i, buffer).unwrap_or(0);
    &buffer[..n]
}

// Whether there is such an argument.
fn is_given(rt: &impl Env, i: usize) -> bool {
    !matches!(rt.arg(i, &mut []), Err(FillError::NotPresent))
}

fn main(rt: HostRuntime) {
    let mut word = [0; 16];
    let mut first = [0; 4096];
    let mut second = [0; 4096];
    let mut third = [0; 4096];
    cli_commands::run(
        &rt,
        argument(&rt, 1, &mut word),
        argument(&rt, 2, &mut first),
        argument(&rt, 3, &mut second),
        argument(&rt, 4, &mut third),
        is_given(&rt, 5),
    );
}
