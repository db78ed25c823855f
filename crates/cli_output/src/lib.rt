// Standard output, and the lines of an answer before they go there: fields and rows put into lent bytes, with the room that any numbers need.
// Standard error is beside it.
#![tactic(auto)]

ghost use Rattle.std.specs.Prelude.{◌≡◌, [], ◌∷◌, map, ◌+◌, ◌*◌, ◌≤◌, length, take};
ghost use Rattle.integers.specs.Decimal.{decimal, signed};
ghost use Rattle.text_layout.specs.Fields.{after};
ghost use Rattle.text_output.specs.Puts.{Puts};
ghost use Rattle.text_output.specs.Joined.{joined};
ghost use Rattle.text_fields.specs.Blank.{blank};
ghost use Rattle.lattices.specs.Refusal.{most_vectors, most_coordinates};
ghost use Rattle.cli_output.specs.Rows.{row_line};
ghost use Rattle.cli_output.specs.Room.{number_room, field_room, row_room, line_room, lines_room};

mod errors;

pub use errors::{Say, fail, say_number};

// Writes all bytes. A write that fails is said on standard error, and false is the answer: the caller leaves then.
pub fn write(rt: &(impl Print + Say), bytes: &[u8]) -> bool {
    match rt.write_all(bytes) {
        Ok(()) => true,
        Err(error) => {
            fail(rt, b"raghymtos: cannot write", error);
            false
        }
    }
}

// Writes n.
pub fn number(rt: &(impl Print + Say), n: u64) -> bool {
    let mut text = [0u8; 20];
    let k = put_number(&mut text, 0, n);
    write(rt, &text[..k])
}

// Writes z, a minus before it where it is negative.
pub fn signed(rt: &(impl Print + Say), z: i64) -> bool {
    (z >= 0 || write(rt, b"-")) && number(rt, z.unsigned_abs())
}

// Ends the line.
pub fn newline(rt: &(impl Print + Say)) -> bool {
    write(rt, b"\n")
}

// A number in decimal.
pub fn put_number(out: &mut [u8], at: usize, n: u64) -> usize
    requires { at + number_room ≤ length out.old }
    ensures puts { Puts (decimal n) out.old at out.new result }
    ensures upper_bound { result ≤ at + number_room }
{
    text_output::put_decimal(out, at, n)
}

// A blank and a number.
pub fn put_field(out: &mut [u8], at: usize, z: i64) -> usize
    requires { at + field_room ≤ length out.old }
    ensures puts { Puts (blank signed z) out.old at out.new result }
    ensures upper_bound { result ≤ at + field_room }
{
    let k = text_output::put_byte(out, at, b' ');
    text_output::put_signed(out, k, z)
}

// The first n numbers of a row, each behind a blank, and the end of the line.
fn put_row(out: &mut [u8], at: usize, row: &[i64], n: usize) -> usize
    requires row_len_bound { length row.now ≤ most_coordinates }
    requires row_room_in_bounds { at + row_room ≤ length out.old }
    ensures puts { Puts (after (map signed (take n row.now))) out.old at out.new result }
    ensures upper_bound { result ≤ at + row_room }
{
    let mut k = at;
    for z in &row[..n.min(row.len())] {
        k = put_field(out, k, *z);
    }
    text_output::put_byte(out, k, b'\n')
}

// The same of a number for each vector.
pub fn put_numbers(out: &mut [u8], at: usize, row: [i64; 4], n: usize) -> usize
    requires { at + row_room ≤ length out.old }
    ensures puts { Puts (after (map signed (take n row))) out.old at out.new result }
    ensures upper_bound { result ≤ at + row_room }
{
    put_row(out, at, &row, n)
}

// A line: its letter and the first n numbers of a row.
fn put_line(out: &mut [u8], at: usize, letter: u8, row: &[i64], n: usize) -> usize
    requires row_len_bound { length row.now ≤ most_coordinates }
    requires line_room_in_bounds { at + line_room ≤ length out.old }
    ensures puts { Puts (row_line letter n row.now) out.old at out.new result }
    ensures upper_bound { result ≤ at + line_room }
{
    let k = text_output::put_byte(out, at, letter);
    put_row(out, k, row, n)
}

// A vector's line.
pub fn put_vector(out: &mut [u8], at: usize, v: row_operations::Vector, m: usize) -> usize
    requires { at + line_room ≤ length out.old }
    ensures puts { Puts (row_line 118 m v) out.old at out.new result }
    ensures upper_bound { result ≤ at + line_room }
{
    put_line(out, at, b'v', &v, m)
}

// The line of a table's row, or of a list of coefficients.
pub fn put_table_row(out: &mut [u8], at: usize, letter: u8, row: [i64; 4], n: usize) -> usize
    requires { at + line_room ≤ length out.old }
    ensures puts { Puts (row_line letter n row) out.old at out.new result }
    ensures upper_bound { result ≤ at + line_room }
{
    put_line(out, at, letter, &row, n)
}

// A line for each of the first d of four rows.
fn put_lines<const N: usize>(
    out: &mut [u8],
    at: usize,
    letter: u8,
    rows: &[[i64; N]],
    d: usize,
    n: usize,
) -> usize
    requires width_bound { N ≤ most_coordinates }
    requires rows_bound { length rows.now ≤ most_vectors }
    requires lines_room_in_bounds { at + lines_room ≤ length out.old }
    ensures puts { Puts (joined (row_line letter n) (take d rows.now)) out.old at out.new result }
    ensures upper_bound { result ≤ at + lines_room }
{
    let mut k = at;
    for row in &rows[..d.min(rows.len())] {
        k = put_line(out, k, letter, row, n);
    }
    k
}

// A line for each of the first d vectors, of m coordinates each.
pub fn put_vectors(
    out: &mut [u8],
    at: usize,
    rows: row_operations::Basis,
    d: usize,
    m: usize,
) -> usize
    requires { at + lines_room ≤ length out.old }
    ensures puts { Puts (joined (row_line 118 m) (take d rows)) out.old at out.new result }
    ensures upper_bound { result ≤ at + lines_room }
{
    put_lines(out, at, b'v', &rows, d, m)
}

// A line for each of the first d rows of a table, of d numbers each.
pub fn put_table(out: &mut [u8], at: usize, letter: u8, rows: [[i64; 4]; 4], d: usize) -> usize
    requires { at + lines_room ≤ length out.old }
    ensures puts { Puts (joined (row_line letter d) (take d rows)) out.old at out.new result }
    ensures upper_bound { result ≤ at + lines_room }
{
    put_lines(out, at, letter, &rows, d, d)
}
