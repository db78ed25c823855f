// The services for callers in other languages. include/raghymtos.h declares them.
#![tactic(auto)]

ghost use Rattle.std.specs.Prelude.{◌≡◌, true, [], leb, length};
ghost use Rattle.lattices.specs.Answer.{reduction_of, nearest_of, membership_of};
ghost use Rattle.solutions.specs.Solution.{TenthsFor};
ghost use Rattle.catalogue_rules.specs.Read.{read};
ghost use Rattle.catalogue_rules.specs.Catalogue.{old, new};
ghost use Rattle.catalogue_rules.specs.Output.{output};
ghost use Rattle.catalogue_rules.specs.Moving.{move_of};
ghost use Rattle.fold_rules.specs.Services.{fold_of, lookup_of, list_of};
ghost use Rattle.separation_rules.specs.Separation.{separate_of};
ghost use Rattle.lent_numbers.specs.Layout.{reduction_count, nearest_count, layout, layout_nearest, tenths_in, layout_membership, layout_output, layout_lookup, layout_separation, written, beside};

// Reduces d vectors of m coordinates each. The answer is written to the first numbers of `out`; one with too few stays as it is.
#[unsafe(no_mangle)]
pub extern "C" fn raghymtos_reduce(numbers: &[i64], d: usize, m: usize, out: &mut [i64]) -> bool
    ensures value { result ≡ leb reduction_count (length out.old) }
    ensures out_after { out.new ≡ written out.old reduction_count (layout (reduction_of (record { numbers = numbers.entry.now; d = d; m = m; target = [] }))) }
{
    lent_engine::reduce(numbers, d, m, out)
}

// Finds the vector nearest to the target in the lattice of d vectors of m coordinates each. The answer is written to the first
// numbers of `out`; one with too few stays as it is.
#[unsafe(no_mangle)]
pub extern "C" fn raghymtos_nearest(
    numbers: &[i64],
    d: usize,
    m: usize,
    target: &[i64],
    out: &mut [i64],
) -> bool
    ensures value { result ≡ leb nearest_count (length out.old) }
    ensures out_after { out.new ≡ written out.old nearest_count (layout_nearest (nearest_of (record { numbers = numbers.entry.now; d = d; m = m; target = target.now })) (tenths_in out.new)) }
    ensures tenths_for { result ≡ true → TenthsFor (record { numbers = numbers.entry.now; d = d; m = m; target = target.now }) (tenths_in out.new) }
{
    lent_engine::nearest(numbers, d, m, target, out)
}

// Whether the target is in the lattice of d vectors of m coordinates each. The answer is written to the first 3 numbers of `out`; a
// shorter `out` stays as it is.
#[unsafe(no_mangle)]
pub extern "C" fn raghymtos_member(
    numbers: &[i64],
    d: usize,
    m: usize,
    target: &[i64],
    out: &mut [i64],
) -> bool
    ensures value { result ≡ leb 3 (length out.old) }
    ensures out_after { out.new ≡ written out.old 3 (layout_membership (membership_of (record { numbers = numbers.entry.now; d = d; m = m; target = target.now }))) }
{
    lent_engine::member(numbers, d, m, target, out)
}

// Reads a catalogue and writes its entries, unfolded, to `out`. The answer is written to the first 3 numbers of `answer`; where that is
// shorter, both stay as they are.
#[unsafe(no_mangle)]
pub extern "C" fn raghymtos_write_out(bytes: &[u8], out: &mut [u8], answer: &mut [i64]) -> bool
    ensures value { result ≡ leb 3 (length answer.old) }
    ensures answer_after { answer.new ≡ written answer.old 3 (layout_output (output (read bytes.now) out.old)) }
    ensures out_after { out.new ≡ beside answer.old 3 out.old (output (read bytes.now) out.old).lent }
{
    lent_catalogue::write_out(bytes, out, answer)
}

// A catalogue of the old form, written in the new form to `out`. The answer is written to the first 3 numbers of `answer`; where that is
// shorter, both stay as they are.
#[unsafe(no_mangle)]
pub extern "C" fn raghymtos_new_form(bytes: &[u8], out: &mut [u8], answer: &mut [i64]) -> bool
    ensures value { result ≡ leb 3 (length answer.old) }
    ensures answer_after { answer.new ≡ written answer.old 3 (layout_output (move_of new bytes.now out.old)) }
    ensures out_after { out.new ≡ beside answer.old 3 out.old (move_of new bytes.now out.old).lent }
{
    lent_moves::new_form(bytes, out, answer)
}

// A catalogue of the new form, written in the old form to `out`. The answer is written to the first 3 numbers of `answer`; where that is
// shorter, both stay as they are.
#[unsafe(no_mangle)]
pub extern "C" fn raghymtos_old_form(bytes: &[u8], out: &mut [u8], answer: &mut [i64]) -> bool
    ensures value { result ≡ leb 3 (length answer.old) }
    ensures answer_after { answer.new ≡ written answer.old 3 (layout_output (move_of old bytes.now out.old)) }
    ensures out_after { out.new ≡ beside answer.old 3 out.old (move_of old bytes.now out.old).lent }
{
    lent_moves::old_form(bytes, out, answer)
}

// Writes the folded catalogue to `out`. The answer is written to the first 3 numbers of `answer`; where that is shorter, both stay as
// they are.
#[unsafe(no_mangle)]
pub extern "C" fn raghymtos_fold(bytes: &[u8], out: &mut [u8], answer: &mut [i64]) -> bool
    ensures value { result ≡ leb 3 (length answer.old) }
    ensures answer_after { answer.new ≡ written answer.old 3 (layout_output (fold_of bytes.now out.old)) }
    ensures out_after { out.new ≡ beside answer.old 3 out.old (fold_of bytes.now out.old).lent }
{
    lent_catalogue::fold(bytes, out, answer)
}

// Writes the listing of a catalogue to `out`. The answer is written to the first 3 numbers of `answer`; where that is shorter, both stay as
// they are.
#[unsafe(no_mangle)]
pub extern "C" fn raghymtos_list(bytes: &[u8], out: &mut [u8], answer: &mut [i64]) -> bool
    ensures value { result ≡ leb 3 (length answer.old) }
    ensures answer_after { answer.new ≡ written answer.old 3 (layout_output (list_of bytes.now out.old)) }
    ensures out_after { out.new ≡ beside answer.old 3 out.old (list_of bytes.now out.old).lent }
{
    lent_catalogue::list(bytes, out, answer)
}

// The standing number of the entry with this number. The answer is written to the first 3 numbers of `answer`; a shorter one stays as it
// is.
#[unsafe(no_mangle)]
pub extern "C" fn raghymtos_lookup(bytes: &[u8], number: u32, answer: &mut [i64]) -> bool
    ensures value { result ≡ leb 3 (length answer.old) }
    ensures answer_after { answer.new ≡ written answer.old 3 (layout_lookup (lookup_of bytes.now number)) }
{
    lent_catalogue::lookup(bytes, number, answer)
}

// What separates the entries with these numbers. The answer is written to the first 5 numbers of `answer`; a shorter one stays as it is.
#[unsafe(no_mangle)]
pub extern "C" fn raghymtos_separate(
    bytes: &[u8],
    first: u32,
    second: u32,
    answer: &mut [i64],
) -> bool
    ensures value { result ≡ leb 5 (length answer.old) }
    ensures answer_after { answer.new ≡ written answer.old 5 (layout_separation (separate_of bytes.now first second)) }
{
    lent_catalogue::separate(bytes, first, second, answer)
}
