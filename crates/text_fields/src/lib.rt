// Fields of a line, each put behind a blank from a place on; the place after it.
#![tactic(auto)]

ghost use Rattle.std.specs.Prelude.{◌+◌, ◌≤◌, length};
ghost use Rattle.integers.specs.Decimal.{decimal, signed};
ghost use Rattle.text_output.specs.Puts.{Puts};
ghost use Rattle.text_output.specs.Joined.{joined};
ghost use Rattle.text_fields.specs.Blank.{blank};

// A blank and a number.
pub fn put_number(out: &mut [u8], at: usize, n: u64) -> usize
    requires { at + length (blank decimal n) ≤ length out.old }
    ensures { Puts (blank decimal n) out.old at out.new result }
{
    let k = text_output::put_byte(out, at, b' ');
    text_output::put_decimal(out, k, n)
}

// A blank and a coordinate.
fn put_coordinate(out: &mut [u8], at: usize, z: i64) -> usize
    requires { at + length (blank signed z) ≤ length out.old }
    ensures { Puts (blank signed z) out.old at out.new result }
{
    let k = text_output::put_byte(out, at, b' ');
    text_output::put_signed(out, k, z)
}

// Coordinates, each behind a blank.
pub fn put_coordinates(out: &mut [u8], at: usize, coordinates: &[i64]) -> usize
    requires { at + length (joined (blank signed) coordinates.now) ≤ length out.old }
    ensures { Puts (joined (blank signed) coordinates.now) out.old at out.new result }
{
    let mut n = at;
    for z in coordinates {
        n = put_coordinate(out, n, *z);
    }
    n
}
