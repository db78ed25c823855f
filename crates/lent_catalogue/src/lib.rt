// The services on catalogues with their answers written to lent numbers; include/raghymtos.h gives their order.
#![tactic(auto)]

ghost use Rattle.std.specs.Prelude.{◌≡◌, ◌<◌, ◌^◌, leb, length, IfOk};
ghost use Rattle.catalogue_rules.specs.Read.{read};
ghost use Rattle.catalogue_rules.specs.Output.{output};
ghost use Rattle.fold_rules.specs.Services.{fold_of, lookup_of, list_of};
ghost use Rattle.separation_rules.specs.Separation.{separate_of};
ghost use Rattle.lent_numbers.specs.Layout.{layout_output, layout_lookup, layout_separation, written, beside};

use refusals::Refused;

// How many numbers the answer of a writing takes.
const WRITING: usize = 3;

// How many numbers the answer of a lookup takes.
const LOOKUP: usize = 3;

// How many numbers the answer about two entries takes.
const SEPARATION: usize = 5;

// Reads a catalogue and writes its entries, unfolded, to `out`. The answer is written to the first 3 numbers of `answer`; where that is
// shorter, both stay as they are.
pub fn write_out(bytes: &[u8], out: &mut [u8], answer: &mut [i64]) -> bool
    ensures value { result ≡ leb 3 (length answer.old) }
    ensures answer_after { answer.new ≡ written answer.old 3 (layout_output (output (read bytes.now) out.old)) }
    ensures out_after { out.new ≡ beside answer.old 3 out.old (output (read bytes.now) out.old).lent }
{
    if answer.len() < WRITING {
        return false;
    }
    let w = catalogue::write_out(bytes, out);
    lent_numbers::put_writing(answer, w);
    true
}

// Writes the folded catalogue to `out`. The answer is written to the first 3 numbers of `answer`; where that is shorter, both stay as
// they are.
pub fn fold(bytes: &[u8], out: &mut [u8], answer: &mut [i64]) -> bool
    ensures value { result ≡ leb 3 (length answer.old) }
    ensures answer_after { answer.new ≡ written answer.old 3 (layout_output (fold_of bytes.now out.old)) }
    ensures out_after { out.new ≡ beside answer.old 3 out.old (fold_of bytes.now out.old).lent }
{
    if answer.len() < WRITING {
        return false;
    }
    let f = catalogue::fold(bytes, out);
    lent_numbers::put_writing(answer, f);
    true
}

// Writes the listing of a catalogue to `out`. The answer is written to the first 3 numbers of `answer`; where that is shorter, both stay as
// they are.
pub fn list(bytes: &[u8], out: &mut [u8], answer: &mut [i64]) -> bool
    ensures value { result ≡ leb 3 (length answer.old) }
    ensures answer_after { answer.new ≡ written answer.old 3 (layout_output (list_of bytes.now out.old)) }
    ensures out_after { out.new ≡ beside answer.old 3 out.old (list_of bytes.now out.old).lent }
{
    if answer.len() < WRITING {
        return false;
    }
    let l = catalogue_listing::list(bytes, out);
    lent_numbers::put_writing(answer, l);
    true
}

// A standing number as a count.
fn counted(standing: Result<u32, Refused>) -> Result<usize, Refused>
    ensures value { result ≡ standing }
    ensures small { IfOk result (λ n. n < 2 ^ 32) }
{
    Ok(standing? as usize)
}

// The standing number of the entry with this number. The answer is written to the first 3 numbers of `answer`; a shorter one stays as it
// is.
pub fn lookup(bytes: &[u8], number: u32, answer: &mut [i64]) -> bool
    ensures value { result ≡ leb 3 (length answer.old) }
    ensures answer_after { answer.new ≡ written answer.old 3 (layout_lookup (lookup_of bytes.now number)) }
{
    if answer.len() < LOOKUP {
        return false;
    }
    let s = catalogue::lookup(bytes, number);
    lent_numbers::put_writing(answer, counted(s));
    true
}

// What separates the entries with these numbers. The answer is written to the first 5 numbers of `answer`; a shorter one stays as it is.
pub fn separate(bytes: &[u8], first: u32, second: u32, answer: &mut [i64]) -> bool
    ensures value { result ≡ leb 5 (length answer.old) }
    ensures answer_after { answer.new ≡ written answer.old 5 (layout_separation (separate_of bytes.now first second)) }
{
    if answer.len() < SEPARATION {
        return false;
    }
    let s = catalogue::separate(bytes, first, second);
    lent_numbers::put_separation(answer, s);
    true
}
