// The answers of a merge as lines.
ghost use Rattle.std.specs.Prelude.{◌+◌, ◌≤◌, length};
ghost use Rattle.text_output.specs.Puts.{Puts};
ghost use Rattle.merges.specs.Stored.{answer_in};
ghost use Rattle.cli_merges.specs.Answers.{provisional_text, final_text, answer_text};
ghost use Rattle.cli_merges.specs.Room.{standing_room, answer_room};

use cli_answers::put_refused;
use merges::Answer;
use refusals::Refused;

// A standing number of an open merge.
fn put_provisional(out: &mut [u8], at: usize, n: u32) -> usize
    requires { at + standing_room ≤ length out.old }
    ensures puts { Puts (provisional_text n) out.old at out.new result }
    ensures upper_bound { result ≤ at + standing_room }
{
    let first = text_output::put_bytes(out, at, b"standing ");
    let second = cli_output::put_number(out, first, n as u64);
    text_output::put_bytes(out, second, b" provisional\n")
}

// The same of a closed one.
fn put_final(out: &mut [u8], at: usize, n: u32) -> usize
    requires { at + standing_room ≤ length out.old }
    ensures puts { Puts (final_text n) out.old at out.new result }
    ensures upper_bound { result ≤ at + standing_room }
{
    let first = text_output::put_bytes(out, at, b"standing ");
    let second = cli_output::put_number(out, first, n as u64);
    text_output::put_byte(out, second, b'\n')
}

// The answer to a call, with the line that says that it was done.
pub(crate) fn put_answer(
    out: &mut [u8],
    at: usize,
    done: &[u8],
    answer: Result<Answer, Refused>,
) -> usize
    requires answer_room_in_bounds { at + answer_room ≤ length out.old }
    requires done_len_bound { length done.now ≤ answer_room }
    ensures puts { Puts (answer_text done.now (answer_in answer)) out.old at out.new result }
    ensures upper_bound { result ≤ at + answer_room }
{
    match answer {
        Ok(Answer::Done) => text_output::put_bytes(out, at, done),
        Ok(Answer::Provisional(n)) => put_provisional(out, at, n),
        Ok(Answer::Final(n)) => put_final(out, at, n),
        Ok(Answer::NotYet) => text_output::put_bytes(out, at, b"not yet\n"),
        Err(r) => put_refused(out, at, r),
    }
}
