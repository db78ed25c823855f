// Answers as text, put into lent bytes: one space between fields, a newline after every line. Each function puts its own from a place on, asks
// for the room that the longest answer of its kind takes, and gives the place after it.
#![tactic(auto)]

ghost use Rattle.std.specs.Prelude.{◌+◌, ◌≤◌, length, Ok};
ghost use Rattle.refusals.specs.Number.{number_of};
ghost use Rattle.engine.specs.Answers.{reduction_in, nearest_in, tenths_in, membership_in};
ghost use Rattle.text_output.specs.Puts.{Puts};
ghost use Rattle.cli_answers.specs.Answers.{refused_text, error_text, reduced_text, reduction_text, found_text, nearest_text, basis_text, yes_or_no, membership_text};
ghost use Rattle.cli_output.specs.Room.{lines_room};
ghost use Rattle.cli_answers.specs.Room.{refused_room, error_room, reduction_room, nearest_room};

use engine::{NearestVector, Reduction};
use refusals::{Refusal, Refused};
use row_operations::{WIDTH, unpacked};

pub mod sentences;
pub mod separations;

// The most bytes of a number, and of a row: a blank and a number for each coordinate, and the end of the line.
const NUMBER: usize = 20;

const ROW: usize = WIDTH * (1 + NUMBER) + 1;

// No answer takes more bytes: a word, the passes and the squared lengths, and the lines of three tables.
pub const MOST_BYTES: usize = 8 + NUMBER + ROW + 3 * 4 * (1 + ROW);

// A refusal's number and its place.
pub fn put_refused(out: &mut [u8], at: usize, r: Refused) -> usize
    requires { at + refused_room ≤ length out.old }
    ensures puts { Puts (refused_text (number_of r.refusal) r.place) out.old at out.new result }
    ensures upper_bound { result ≤ at + refused_room }
{
    let first = text_output::put_bytes(out, at, b"refused ");
    let second = cli_output::put_number(out, first, r.refusal.number());
    let third = text_output::put_byte(out, second, b' ');
    let fourth = cli_output::put_number(out, third, r.place as u64);
    text_output::put_byte(out, fourth, b'\n')
}

// The engine's refusals have the place 0.
fn put_refusal(out: &mut [u8], at: usize, refusal: Refusal) -> usize
    requires { at + refused_room ≤ length out.old }
    ensures puts { Puts (refused_text (number_of refusal) 0) out.old at out.new result }
    ensures upper_bound { result ≤ at + refused_room }
{
    put_refused(out, at, Refused { refusal, place: 0 })
}

// What is wrong with a line of the input.
pub fn put_error(out: &mut [u8], at: usize, line: u64, what: &[u8]) -> usize
    requires { at + error_room + length what.now ≤ length out.old }
    ensures puts { Puts (error_text line what.now) out.old at out.new result }
    ensures upper_bound { result ≤ at + error_room + length what.now }
{
    let first = text_output::put_bytes(out, at, b"error ");
    let second = cli_output::put_number(out, first, line);
    let third = text_output::put_bytes(out, second, b": ");
    let fourth = text_output::put_bytes(out, third, what);
    text_output::put_byte(out, fourth, b'\n')
}

// The passes and the squared lengths, then the reduced vectors, U and V, a line for each row.
fn put_reduced(out: &mut [u8], at: usize, a: &Reduction, d: usize, m: usize) -> usize
    requires { at + reduction_room ≤ length out.old }
    ensures puts { Puts (reduced_text d m (reduction_in (Ok a.now))) out.old at out.new result }
    ensures upper_bound { result ≤ at + reduction_room }
{
    let first = text_output::put_bytes(out, at, b"reduced ");
    let second = cli_output::put_number(out, first, a.passes);
    let third = cli_output::put_numbers(out, second, a.squares, d);
    let fourth = cli_output::put_vectors(out, third, unpacked(&a.vectors), d, m);
    let fifth = cli_output::put_table(out, fourth, b'U', unpacked(&a.u), d);
    cli_output::put_table(out, fifth, b'V', unpacked(&a.v), d)
}

// The answer to a reduction of d vectors of m coordinates.
pub fn put_reduction(
    out: &mut [u8],
    at: usize,
    a: &Result<Reduction, Refusal>,
    d: usize,
    m: usize,
) -> usize
    requires { at + reduction_room ≤ length out.old }
    ensures puts { Puts (reduction_text d m (reduction_in a.now)) out.old at out.new result }
    ensures upper_bound { result ≤ at + reduction_room }
{
    match a {
        Ok(a) => put_reduced(out, at, a, d, m),
        Err(refusal) => put_refusal(out, at, *refusal),
    }
}

// The reduced vectors alone, a line each.
pub fn put_basis(out: &mut [u8], at: usize, a: &Reduction, d: usize, m: usize) -> usize
    requires { at + lines_room ≤ length out.old }
    ensures puts { Puts (basis_text d m (reduction_in (Ok a.now))) out.old at out.new result }
    ensures upper_bound { result ≤ at + lines_room }
{
    cli_output::put_vectors(out, at, unpacked(&a.vectors), d, m)
}

// The squared distance, then a line with the coefficients, one with the solution in tenths and one with the vector.
fn put_found(out: &mut [u8], at: usize, a: &NearestVector, d: usize, m: usize) -> usize
    requires { at + nearest_room ≤ length out.old }
    ensures puts { Puts (found_text d m a.now.tenths (nearest_in (Ok a.now))) out.old at out.new result }
    ensures upper_bound { result ≤ at + nearest_room }
{
    let first = text_output::put_bytes(out, at, b"nearest");
    let second = cli_output::put_field(out, first, a.square);
    let third = text_output::put_byte(out, second, b'\n');
    let fourth = cli_output::put_table_row(out, third, b'c', a.coefficients, d);
    let fifth = cli_output::put_table_row(out, fourth, b's', a.tenths, d);
    cli_output::put_vector(out, fifth, a.vector, m)
}

// The answer to a search for the vector nearest to a target.
pub fn put_nearest(
    out: &mut [u8],
    at: usize,
    a: &Result<NearestVector, Refusal>,
    d: usize,
    m: usize,
) -> usize
    requires { at + nearest_room ≤ length out.old }
    ensures puts { Puts (nearest_text d m (tenths_in a.now) (nearest_in a.now)) out.old at out.new result }
    ensures upper_bound { result ≤ at + nearest_room }
{
    match a {
        Ok(a) => put_found(out, at, a, d, m),
        Err(refusal) => put_refusal(out, at, *refusal),
    }
}

// Yes or no, a line.
fn put_yes_or_no(out: &mut [u8], at: usize, member: bool) -> usize
    requires { at + 4 ≤ length out.old }
    ensures puts { Puts (yes_or_no member) out.old at out.new result }
    ensures upper_bound { result ≤ at + 4 }
{
    if member {
        return text_output::put_bytes(out, at, b"yes\n");
    }
    text_output::put_bytes(out, at, b"no\n")
}

// The answer to whether a target is in a lattice.
pub fn put_membership(out: &mut [u8], at: usize, a: Result<bool, Refusal>) -> usize
    requires { at + refused_room ≤ length out.old }
    ensures puts { Puts (membership_text (membership_in a)) out.old at out.new result }
    ensures upper_bound { result ≤ at + refused_room }
{
    match a {
        Ok(member) => put_yes_or_no(out, at, member),
        Err(refusal) => put_refusal(out, at, refusal),
    }
}
