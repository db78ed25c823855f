// The lines of a stream: where one ends, what is kept of one that has not ended yet, their numbers, and the room for an answer.
#![tactic(auto)]

ghost use Rattle.std.specs.Prelude.{◌≡◌, ◌+◌, ◌-◌, ◌≤◌, min, length, take, drop, IfSome};
ghost use Rattle.cli_lines.specs.Lines.{line_length, kept};

use cli_output::Say;

// How long the first line is, without its newline.
pub fn line_length(s: &[u8]) -> usize
    ensures value { result ≡ line_length s.now }
    ensures upper_bound { result ≤ length s.now }
{
    s.iter().position(|&b| b == b'\n').unwrap_or(s.len())
}

// Moves what is kept of the line that begins at place from to the start: all that has come of it, or of one that is too long so much that this
// is seen.
pub fn keep(bytes: &mut [u8], from: usize, end: usize) -> usize
    requires from_le_end { from ≤ end }
    requires end_in_bounds { end ≤ length bytes.old }
    ensures bytes_after { take result bytes.new ≡ kept (take (end - from) (drop from bytes.old)) }
    ensures value { result ≡ min (end - from) 4097 }
{
    let n = (end - from).min(4097);
    bytes.copy_within(from..from + n, 0);
    n
}

// The number of the next line. A count that no machine reaches stays as it is.
pub fn next(line: u64) -> u64 {
    line.saturating_add(1)
}

// Writes what stands in the output, unless it has room for an answer, which takes no more than so many bytes. How far the output is filled
// then; none where a write failed.
pub fn make_room(rt: &(impl Print + Say), out: &[u8], at: usize, most: usize) -> Option<usize>
    requires most_in_bounds { most ≤ length out.now }
    requires at_in_bounds { at ≤ length out.now }
    ensures { IfSome result (λ place. place + most ≤ length out.now) }
{
    if most <= out.len() - at {
        return Some(at);
    }
    cli_output::write(rt, &out[..at]).then_some(0)
}
