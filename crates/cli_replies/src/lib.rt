// A line answered: a request, or what is wrong with it.
#![tactic(auto)]

ghost use Rattle.std.specs.Prelude.{◌≡◌, [], true, false, ◌+◌, ◌≤◌, length};
ghost use Rattle.lattices.specs.Answer.{reduction_of};
ghost use Rattle.text_output.specs.Puts.{Puts};
ghost use Rattle.cli_answers.specs.Answers.{basis_text};
ghost use Rattle.cli_replies.specs.Replies.{what_is_wrong, mistake_text, reduced_of, reduce_with, reduce_reply, found_on, member_on, wanted_of, with_target, with_vectors, target_reply, reply, number_text, answer};
ghost use Rattle.cli_replies.specs.Reply.{Told};
ghost use Rattle.cli_output.specs.Room.{field_room, lines_room};
ghost use Rattle.cli_answers.specs.Room.{refused_room, reduction_room};
ghost use Rattle.cli_replies.specs.Room.{mistake_room, target_room, answer_room};

use text_parts::Kind;

// No answer takes more bytes: the line's number, a blank, and the longest answer.
pub const MOST_BYTES: usize = 21 + cli_answers::MOST_BYTES;

// No line has more numbers in a part: a number and a blank take two bytes.
pub const MOST_LISTED: usize = 2048;

// Room for the numbers of a part.
pub type Listed = [i64; MOST_LISTED];

// What is asked about a target.
#[derive(Clone, Copy)]
pub enum Wanted {
    Vector,
    VectorOnBasis,
    Membership,
}

// What the lines ask for.
#[derive(Clone, Copy)]
pub enum Command {
    Reduce,
    About(Wanted),
}

// What is wrong where a part stops in a way that it may not.
fn what_is_wrong(stop: Kind) -> &'static [u8]
    ensures sentence { result.now ≡ what_is_wrong stop }
    ensures upper_bound { length result.now ≤ 27 }
{
    match stop {
        Kind::Number(_) | Kind::Unexpected => b"something that is no number",
        Kind::Semicolon => b"a part too many",
        Kind::End => b"a part is missing",
        Kind::TooLarge => b"a number beyond 64 bits",
        Kind::TooMany => b"too many numbers",
        Kind::NoCount => b"d and m are counts",
    }
}

// The line that says it.
fn put_mistake(out: &mut [u8], at: usize, line: u64, stop: Kind) -> usize
    requires { at + mistake_room ≤ length out.old }
    ensures puts { Puts (mistake_text line stop) out.old at out.new result }
    ensures upper_bound { result ≤ at + mistake_room }
{
    cli_answers::put_error(out, at, line, what_is_wrong(stop))
}

// The reduction of the numbers.
fn put_reduction(out: &mut [u8], at: usize, d: usize, m: usize, numbers: &[i64]) -> usize
    requires { at + reduction_room ≤ length out.old }
    ensures puts { Puts (reduced_of d m numbers.now) out.old at out.new result }
    ensures upper_bound { result ≤ at + reduction_room }
{
    cli_answers::put_reduction(out, at, &engine::reduce(numbers, d, m), d, m)
}

// Answers the second part of a reduction, the numbers, vector by vector.
fn reduce_with(
    out: &mut [u8],
    at: usize,
    line: u64,
    d: usize,
    m: usize,
    s: &[u8],
    numbers: &mut Listed,
) -> usize
    requires { at + reduction_room ≤ length out.old }
    ensures puts { Puts (reduce_with line d m s.now) out.old at out.new result }
    ensures upper_bound { result ≤ at + reduction_room }
{
    let part = text_parts::read_part(s, numbers);
    if part.stop != Kind::End {
        return put_mistake(out, at, line, part.stop);
    }
    put_reduction(out, at, d, m, &numbers[..part.count])
}

// Answers `d m ; numbers`.
fn reduce(out: &mut [u8], at: usize, line: u64, s: &[u8], numbers: &mut Listed) -> usize
    requires { at + reduction_room ≤ length out.old }
    ensures puts { Puts (reduce_reply line s.now) out.old at out.new result }
    ensures upper_bound { result ≤ at + reduction_room }
{
    let counts = text_parts::first_part::read_counts(s);
    if counts.stop != Kind::Semicolon {
        return put_mistake(out, at, line, counts.stop);
    }
    reduce_with(
        out,
        at,
        line,
        counts.d,
        counts.m,
        &s[counts.length..],
        numbers,
    )
}

// The reduced vectors.
fn put_basis(out: &mut [u8], at: usize, d: usize, m: usize, numbers: &[i64]) -> usize
    requires in_bounds { at + lines_room ≤ length out.old }
    requires accepted { (reduction_of (record { numbers = numbers.now; d = d; m = m; target = [] })).refusal ≡ 0 }
    ensures puts { Puts (basis_text d m (reduction_of (record { numbers = numbers.now; d = d; m = m; target = [] }))) out.old at out.new result }
    ensures upper_bound { result ≤ at + lines_room }
{
    match engine::reduce(numbers, d, m) {
        Ok(a) => cli_answers::put_basis(out, at, &a, d, m),
        Err(_) => at,
    }
}

// The vector nearest to the target.
fn put_nearest(
    out: &mut [u8],
    at: usize,
    d: usize,
    m: usize,
    numbers: &[i64],
    target: &[i64],
) -> usize
    requires { at + target_room ≤ length out.old }
    ensures told { Told (found_on false d m numbers.now target.now) out.old at out.new result }
    ensures upper_bound { result ≤ at + target_room }
{
    cli_answers::put_nearest(out, at, &engine::nearest(numbers, d, m, target), d, m)
}

// The same behind the reduced vectors, unless the search is refused.
fn put_on_basis(
    out: &mut [u8],
    at: usize,
    d: usize,
    m: usize,
    numbers: &[i64],
    target: &[i64],
) -> usize
    requires { at + target_room ≤ length out.old }
    ensures told { Told (found_on true d m numbers.now target.now) out.old at out.new result }
    ensures upper_bound { result ≤ at + target_room }
{
    let a = engine::nearest(numbers, d, m, target);
    if a.is_err() {
        return cli_answers::put_nearest(out, at, &a, d, m);
    }
    let k = put_basis(out, at, d, m, numbers);
    cli_answers::put_nearest(out, k, &a, d, m)
}

// Whether the target is in the lattice.
fn put_member(
    out: &mut [u8],
    at: usize,
    d: usize,
    m: usize,
    numbers: &[i64],
    target: &[i64],
) -> usize
    requires { at + refused_room ≤ length out.old }
    ensures puts { Puts (member_on d m numbers.now target.now) out.old at out.new result }
    ensures upper_bound { result ≤ at + refused_room }
{
    cli_answers::put_membership(out, at, engine::membership(numbers, d, m, target))
}

// What is asked about the target.
fn put_wanted(
    out: &mut [u8],
    at: usize,
    wanted: Wanted,
    d: usize,
    m: usize,
    numbers: &[i64],
    target: &[i64],
) -> usize
    requires { at + target_room ≤ length out.old }
    ensures told { Told (wanted_of wanted d m numbers.now target.now) out.old at out.new result }
    ensures upper_bound { result ≤ at + target_room }
{
    match wanted {
        Wanted::Vector => put_nearest(out, at, d, m, numbers, target),
        Wanted::VectorOnBasis => put_on_basis(out, at, d, m, numbers, target),
        Wanted::Membership => put_member(out, at, d, m, numbers, target),
    }
}

// Answers the last part of a request with a target, the target.
fn with_target(
    out: &mut [u8],
    at: usize,
    wanted: Wanted,
    line: u64,
    d: usize,
    m: usize,
    numbers: &[i64],
    s: &[u8],
    target: &mut Listed,
) -> usize
    requires { at + target_room ≤ length out.old }
    ensures told { Told (with_target wanted line d m numbers.now s.now) out.old at out.new result }
    ensures upper_bound { result ≤ at + target_room }
{
    let part = text_parts::read_part(s, target);
    if part.stop != Kind::End {
        return put_mistake(out, at, line, part.stop);
    }
    put_wanted(out, at, wanted, d, m, numbers, &target[..part.count])
}

// Answers the parts after the first of such a request, vectors and target.
fn with_vectors(
    out: &mut [u8],
    at: usize,
    wanted: Wanted,
    line: u64,
    d: usize,
    m: usize,
    s: &[u8],
    numbers: &mut Listed,
    target: &mut Listed,
) -> usize
    requires { at + target_room ≤ length out.old }
    ensures told { Told (with_vectors wanted line d m s.now) out.old at out.new result }
    ensures upper_bound { result ≤ at + target_room }
{
    let part = text_parts::read_part(s, numbers);
    if part.stop != Kind::Semicolon {
        return put_mistake(out, at, line, part.stop);
    }
    with_target(
        out,
        at,
        wanted,
        line,
        d,
        m,
        &numbers[..part.count],
        &s[part.length..],
        target,
    )
}

// Answers `d m ; numbers ; target`.
fn about_target(
    out: &mut [u8],
    at: usize,
    wanted: Wanted,
    line: u64,
    s: &[u8],
    numbers: &mut Listed,
    target: &mut Listed,
) -> usize
    requires { at + target_room ≤ length out.old }
    ensures told { Told (target_reply wanted line s.now) out.old at out.new result }
    ensures upper_bound { result ≤ at + target_room }
{
    let counts = text_parts::first_part::read_counts(s);
    if counts.stop != Kind::Semicolon {
        return put_mistake(out, at, line, counts.stop);
    }
    with_vectors(
        out,
        at,
        wanted,
        line,
        counts.d,
        counts.m,
        &s[counts.length..],
        numbers,
        target,
    )
}

// Answers a line that is not blank.
fn put_reply(
    out: &mut [u8],
    at: usize,
    command: Command,
    line: u64,
    s: &[u8],
    numbers: &mut Listed,
    target: &mut Listed,
) -> usize
    requires { at + reduction_room ≤ length out.old }
    ensures told { Told (reply command line s.now) out.old at out.new result }
    ensures upper_bound { result ≤ at + reduction_room }
{
    match command {
        Command::Reduce => reduce(out, at, line, s, numbers),
        Command::About(wanted) => about_target(out, at, wanted, line, s, numbers, target),
    }
}

// The line's number and a blank, where they are asked for.
fn put_line_number(out: &mut [u8], at: usize, numbered: bool, line: u64) -> usize
    requires { at + field_room ≤ length out.old }
    ensures puts { Puts (number_text numbered line) out.old at out.new result }
    ensures upper_bound { result ≤ at + field_room }
{
    if !numbered {
        return at;
    }
    let k = cli_output::put_number(out, at, line);
    text_output::put_byte(out, k, b' ')
}

// Answers a line: nothing where it holds nothing but blanks.
pub fn answer(
    command: Command,
    numbered: bool,
    s: &[u8],
    line: u64,
    numbers: &mut Listed,
    target: &mut Listed,
    out: &mut [u8],
    at: usize,
) -> usize
    requires { at + answer_room ≤ length out.old }
    ensures told { Told (answer command numbered line s.now) out.old at out.new result }
    ensures upper_bound { result ≤ at + answer_room }
{
    if 4096 < s.len() {
        let k = put_line_number(out, at, numbered, line);
        return cli_answers::put_error(out, k, line, b"longer than 4096 bytes");
    }
    if text_parts::tokens::blanks(s) == s.len() {
        return at;
    }
    let k = put_line_number(out, at, numbered, line);
    put_reply(out, k, command, line, s, numbers, target)
}
