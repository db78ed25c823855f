// A merge kept for a whole run: commands on standard input, a line each, answered on standard output as they come, in fixed memory. The loops here
// only move bytes; what is a line and what is kept of one is under contract in cli_lines, what is answered in the modules.
#![tactic(auto)]

ghost use Rattle.std.specs.Prelude.{◌≤◌, length, IfSome};
ghost use Rattle.merges.specs.IsMerge.{IsMerge};
ghost use Rattle.cli_merges.specs.Room.{reply_room};

use cli_output::Say;
use merges::Merge;
use std::io::Read;

mod answers;
mod commands;
mod digits;
pub mod replies;

// The merge, how far the input is answered, what its next line's number is, and how far the output is filled.
#[derive(Clone, Copy)]
struct Place {
    merge: Merge,
    from: usize,
    line: u64,
    at: usize,
}

// Answers every line that ends, from the start of the bytes on. None where a write failed.
fn answer_lines(
    rt: &(impl Print + Say),
    merge: Merge,
    bytes: &[u8],
    first: u64,
    out: &mut [u8],
) -> Option<Place>
    requires merge { IsMerge merge }
    requires reply_room_in_bounds { reply_room ≤ length out.old }
    ensures merge_2 { IfSome result (λ p. IsMerge p.merge) }
    ensures from_in_bounds { IfSome result (λ p. p.from ≤ length bytes.now) }
    ensures at_in_bounds { IfSome result (λ p. p.at ≤ length out.old) }
{
    let mut p = Place {
        merge,
        from: 0,
        line: first,
        at: 0,
    };
    while p.from < bytes.len() {
        let end = p.from + cli_lines::line_length(&bytes[p.from..]);
        if end == bytes.len() {
            break;
        }
        let at = cli_lines::make_room(rt, out, p.at, replies::MOST_BYTES)?;
        let r = replies::answer(p.merge, &bytes[p.from..end], p.line, out, at);
        p.merge = r.merge;
        p.from = end + 1;
        p.line = cli_lines::next(p.line);
        p.at = r.at;
    }
    Some(p)
}

// The merge, what is kept of the line that has not ended, and the line's number; and whether the input is over.
#[derive(Clone, Copy)]
struct Turn {
    merge: Merge,
    have: usize,
    line: u64,
    is_over: bool,
}

// Reads once, answers every line that ends and writes the answers, so that what has come is answered before more is waited for. None where a read
// or a write failed.
fn take_turn(
    rt: &(impl Print + Say),
    input: &mut impl Read,
    t: Turn,
    bytes: &mut [u8],
    out: &mut [u8],
) -> Option<Turn>
    requires merge { IsMerge t.merge }
    requires in_bounds { 4097 ≤ length bytes.old }
    requires reply_room_in_bounds { reply_room ≤ length out.old }
    requires have_bound { t.have ≤ 4097 }
    ensures merge_2 { IfSome result (λ t. IsMerge t.merge) }
    ensures have_bound_2 { IfSome result (λ t. t.have ≤ 4097) }
{
    let end = cli_input::read_more(rt, input, bytes, t.have)?;
    if end == t.have {
        return Some(Turn { is_over: true, ..t });
    }
    let p = answer_lines(rt, t.merge, &bytes[..end], t.line, out)?;
    if !cli_output::write(rt, &out[..p.at]) {
        return None;
    }
    Some(Turn {
        merge: p.merge,
        have: cli_lines::keep(bytes, p.from, end),
        line: p.line,
        is_over: false,
    })
}

// Answers the last line, which no newline ends.
fn finish(rt: &(impl Print + Say), bytes: &[u8], t: Turn, out: &mut [u8])
    requires in_bounds { 4097 ≤ length bytes.now }
    requires reply_room_in_bounds { reply_room ≤ length out.old }
    requires merge { IsMerge t.merge }
    requires have_bound { t.have ≤ 4097 }
{
    let r = replies::answer(t.merge, &bytes[..t.have], t.line, out, 0);
    cli_output::write(rt, &out[..r.at]);
}

// Takes turns until the input is over or a read or a write fails. Nothing says that a stream ends and a proved loop must, so the turns are
// counted up to a number that no run reaches.
fn serve_with(rt: &(impl Print + Say), input: &mut impl Read, bytes: &mut [u8], out: &mut [u8])
    requires in_bounds { 4097 ≤ length bytes.old }
    requires reply_room_in_bounds { reply_room ≤ length out.old }
{
    let mut turn = Turn {
        merge: Merge::start(),
        have: 0,
        line: 1,
        is_over: false,
    };
    for _ in 0..u64::MAX {
        let Some(t) = take_turn(rt, input, turn, bytes, out) else {
            return;
        };
        if t.is_over {
            finish(rt, bytes, t, out);
            return;
        }
        turn = t;
    }
}

// Answers the commands of a run. The bytes are what all turns share: so much is read and written at a time.
pub fn serve(rt: &(impl Input + Print + Say)) {
    let mut bytes = [0; 32768];
    let mut out = [0; 131072];
    let mut input = rt.reader();
    serve_with(rt, &mut input, &mut bytes, &mut out);
}
