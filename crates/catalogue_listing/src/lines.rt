// The lines of a listing, each put from a place on; the place after it.
ghost use Rattle.std.specs.Prelude.{[], ◌∷◌, map, ◌+◌, ◌≤◌, length};
ghost use Rattle.lattices.specs.Refusal.{most_coordinates};
ghost use Rattle.integers.specs.Decimal.{decimal};
ghost use Rattle.text_layout.specs.Fields.{after, line};
ghost use Rattle.text_output.specs.Puts.{Puts};
ghost use Rattle.catalogue_listing.specs.Lines.{vector_line};

// Numbers, each behind a blank, and the end of the line.
fn put_numbers(out: &mut [u8], at: usize, numbers: &[u64]) -> usize
    requires { at + length (after (map decimal numbers.now)) ≤ length out.old }
    ensures { Puts (after (map decimal numbers.now)) out.old at out.new result }
{
    let mut n = at;
    for number in numbers {
        n = text_fields::put_number(out, n, *number);
    }
    text_output::put_byte(out, n, b'\n')
}

// The first m coordinates of a reduced vector.
pub(crate) fn put_vector(out: &mut [u8], at: usize, v: &row_operations::Vector, m: usize) -> usize
    requires m_le_most_coordinates { m ≤ most_coordinates }
    requires v_in_bounds { at + length (vector_line m v.now) ≤ length out.old }
    ensures { Puts (vector_line m v.now) out.old at out.new result }
{
    let k = text_output::put_byte(out, at, b'v');
    let n = text_fields::put_coordinates(out, k, &v[..m]);
    text_output::put_byte(out, n, b'\n')
}

// How many entries there are, and how many of them stand.
pub(crate) fn put_counts(out: &mut [u8], at: usize, entries: u64, standing: u64) -> usize
    requires { at + length (line (decimal entries) (decimal standing ∷ [])) ≤ length out.old }
    ensures { Puts (line (decimal entries) (decimal standing ∷ [])) out.old at out.new result }
{
    let k = text_output::put_decimal(out, at, entries);
    put_numbers(out, k, &[standing])
}

// An entry: its number, its standing number, where its see word leads and how many passes reduced it.
pub(crate) fn put_entry_line(
    out: &mut [u8],
    at: usize,
    number: u64,
    standing: u64,
    lead: u64,
    passes: u64,
) -> usize
    requires { at + length (line (decimal number) (decimal standing ∷ decimal lead ∷ decimal passes ∷ [])) ≤ length out.old }
    ensures { Puts (line (decimal number) (decimal standing ∷ decimal lead ∷ decimal passes ∷ [])) out.old at out.new result }
{
    let k = text_output::put_decimal(out, at, number);
    put_numbers(out, k, &[standing, lead, passes])
}
