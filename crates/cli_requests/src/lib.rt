// Requests on standard input, a line each, answered on standard output in fixed memory, however long the stream is. The loops here only move
// bytes; what is a line and what is kept of one is under contract in cli_lines, what is answered in cli_replies.
#![tactic(auto)]

ghost use Rattle.std.specs.Prelude.{◌+◌, ◌≤◌, length, IfSome};
ghost use Rattle.cli_replies.specs.Room.{answer_room};

use cli_output::Say;
use cli_replies::{Command, Listed, MOST_LISTED, Wanted};
use std::io::Read;

// So many bytes are read and written at a time.
const MOST_MOVED: usize = 32768;

// How far the input is answered, what its next line's number is, and how far the output is filled.
#[derive(Clone, Copy)]
struct Place {
    from: usize,
    line: u64,
    at: usize,
}

// How much is kept of the line that has not ended, and the line's number.
#[derive(Clone, Copy)]
struct Kept {
    have: usize,
    line: u64,
}

// What is asked, whether the line's number stands before each answer, and what all answers share: the numbers of a line, and the output.
#[derive(Drop)]
struct Server {
    command: Command,
    numbered: bool,
    numbers: Listed,
    target: Listed,
    out: [u8; MOST_MOVED],
}

impl Server {
    // Answers a line at a place of the output.
    fn answer(&mut self, s: &[u8], line: u64, at: usize) -> usize
        requires { at + answer_room ≤ 32768 }
        ensures { result ≤ 32768 }
    {
        cli_replies::answer(
            self.command,
            self.numbered,
            s,
            line,
            &mut self.numbers,
            &mut self.target,
            &mut self.out,
            at,
        )
    }

    // Answers every line that ends, from the start of the bytes on; none where a write failed.
    fn answer_lines(&mut self, rt: &(impl Print + Say), bytes: &[u8], first: u64) -> Option<Place>
        ensures { IfSome result (λ p. record { from_in_bounds : p.from ≤ length bytes.now; at_in_bounds : p.at ≤ 32768 }) }
    {
        let mut from = 0;
        let mut line = first;
        let mut at = 0;
        while from < bytes.len() {
            let end = from + cli_lines::line_length(&bytes[from..]);
            if end == bytes.len() {
                break;
            }
            let place = cli_lines::make_room(rt, &self.out, at, cli_replies::MOST_BYTES)?;
            at = self.answer(&bytes[from..end], line, place);
            from = end + 1;
            line = cli_lines::next(line);
        }
        Some(Place { from, line, at })
    }

    // Answers every line that ends in the bytes that have come and writes the answers, so that what has come is answered before more is waited
    // for; none where a write failed.
    fn take_turn(
        &mut self,
        rt: &(impl Print + Say),
        bytes: &mut [u8; MOST_MOVED],
        end: usize,
        line: u64,
    ) -> Option<Kept>
        requires { end ≤ 32768 }
        ensures { IfSome result (λ k. k.have ≤ 4097) }
    {
        let p = self.answer_lines(rt, &bytes[..end], line)?;
        if !cli_output::write(rt, &self.out[..p.at]) {
            return None;
        }
        Some(Kept {
            have: cli_lines::keep(bytes, p.from, end),
            line: p.line,
        })
    }

    // Answers the last line, which no newline ends.
    fn finish(&mut self, rt: &(impl Print + Say), s: &[u8], line: u64) {
        let at = self.answer(s, line, 0);
        cli_output::write(rt, &self.out[..at]);
    }

    // Takes turns until the input is over or a read or a write fails. Nothing says that a stream ends and a proved loop must, so the turns are
    // counted up to a number that no run reaches.
    fn serve(&mut self, rt: &(impl Print + Say), input: &mut impl Read) {
        let mut bytes = [0; MOST_MOVED];
        let mut have = 0;
        let mut line = 1;
        for _ in 0..u64::MAX {
            let Some(end) = cli_input::read_more(rt, input, &mut bytes, have) else {
                return;
            };
            if end == have {
                self.finish(rt, &bytes[..have], line);
                return;
            }
            let Some(kept) = self.take_turn(rt, &mut bytes, end, line) else {
                return;
            };
            have = kept.have;
            line = kept.line;
        }
    }
}

// Answers what comes on standard input.
fn serve(rt: &(impl Input + Print + Say), command: Command, numbered: bool) {
    let mut server = Server {
        command,
        numbered,
        numbers: [0; MOST_LISTED],
        target: [0; MOST_LISTED],
        out: [0; MOST_MOVED],
    };
    let mut input = rt.reader();
    server.serve(rt, &mut input);
}

// Answers requests for reductions, the line's number before each answer or not.
pub fn reduce(rt: &(impl Input + Print + Say), numbered: bool) {
    serve(rt, Command::Reduce, numbered);
}

// Answers requests for nearest vectors, with the reduced vectors before each answer or not.
pub fn nearest(rt: &(impl Input + Print + Say), numbered: bool, basis: bool) {
    let wanted = if basis {
        Wanted::VectorOnBasis
    } else {
        Wanted::Vector
    };
    serve(rt, Command::About(wanted), numbered);
}

// Answers requests whether a target is in a lattice.
pub fn member(rt: &(impl Input + Print + Say), numbered: bool) {
    serve(rt, Command::About(Wanted::Membership), numbered);
}
