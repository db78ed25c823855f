// The refusals, a sentence each, and what goes to standard error. A write that fails there can be said nowhere.
use cli_output::{Say, say_number, write};
use refusals::{Refusal, Refused};
use std::io::Write;

// Says a refusal, its place and what it means.
fn say(rt: &impl Say, r: Refused) {
    let mut text = [0u8; 160];
    let mut rest: &mut [u8] = &mut text;
    let Refused { refusal, place } = r;
    let _ = write!(rest, "refused {} {place}: {refusal}", refusal.number());
    let n = 160 - rest.len().min(160);
    rt.say(&text[..n]);
}

// Says a refusal on standard error.
pub fn say_refused(rt: &impl Say, r: Refused) {
    say(rt, r);
    rt.say(b"\n");
}

// Says a refusal of what a line of a text tells, where one does.
pub fn say_refused_line(rt: &impl Say, r: Refused, line: Option<usize>) {
    say(rt, r);
    if let Some(line) = line {
        rt.say(b", line ");
        say_number(rt, line as u64);
    }
    rt.say(b"\n");
}

// Says on standard error what is wrong with a line of the input.
pub fn say_error(rt: &impl Say, line: u64, what: &[u8]) {
    rt.say(b"error ");
    say_number(rt, line);
    rt.say(b": ");
    rt.say(what);
    rt.say(b"\n");
}

// Writes a refusal's number and what it means.
fn row(rt: &(impl Print + Say), refusal: Refusal) -> bool {
    let mut text = [0u8; 128];
    let mut rest: &mut [u8] = &mut text;
    let _ = writeln!(rest, "{} {refusal}", refusal.number());
    let n = 128 - rest.len().min(128);
    write(rt, &text[..n])
}

// Writes the table of the refusals that a catalogue and the engine have, a line each.
pub fn table(rt: &(impl Print + Say)) {
    for refusal in &Refusal::ALL[..20] {
        if !row(rt, *refusal) {
            return;
        }
    }
}
