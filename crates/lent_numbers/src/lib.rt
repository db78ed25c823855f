// Answers written to lent numbers, part by part. include/raghymtos.h gives their order.
#![tactic(auto)]

ghost use Rattle.std.specs.Prelude.{◌≡◌, ◌+◌, ◌*◌, ◌≤◌, pos, length};
ghost use Rattle.std.proofs.lemmas.List.Edits.{sets};
ghost use Rattle.separation_answers.specs.Said.{said_by};
ghost use Rattle.lent_numbers.specs.Layout.{flat, head, head_in, flag, layout_separation};
ghost use Rattle.lent_numbers.specs.Small.{Small, SmallCount};

use refusals::Refused;
use separation_answers::Separation;

// Writes a run of numbers from `at` on.
pub fn put_run(out: &mut [i64], at: usize, run: &[i64])
    requires { at + length run.now ≤ length out.old }
    ensures { out.new ≡ sets out.old at run.now }
{
    out[at..at + run.len()].copy_from_slice(run);
}

// Writes the rows of a table one after another from `at` on.
pub fn put_rows<const N: usize>(out: &mut [i64], at: usize, rows: &[[i64; N]; 4])
    requires { at + 4 * N ≤ length out.old }
    ensures { out.new ≡ sets out.old at (flat rows.now) }
{
    put_run(out, at, &rows[0]);
    put_run(out, at + N, &rows[1]);
    put_run(out, at + 2 * N, &rows[2]);
    put_run(out, at + 3 * N, &rows[3]);
}

// Writes what stands before an answer's rows: refusal, place and one number.
pub fn put_head(out: &mut [i64], refusal: u64, place: u64, number: i64)
    requires in_bounds { 3 ≤ length out.old }
    requires refusal_bound { (refusal ≤ 1000000000000) × (place ≤ 1000000000000) }
    ensures { out.new ≡ sets out.old 0 (head refusal place number) }
{
    out[0] = refusal as i64;
    out[1] = place as i64;
    out[2] = number;
}

// Writes what stands in an answer about a catalogue: refusal, place and a count.
pub fn put_counts(out: &mut [i64], refusal: u64, place: usize, count: usize)
    requires in_bounds { 3 ≤ length out.old }
    requires refusal_bound { (refusal ≤ 1000000000000) × (place ≤ 1000000000000) × (count ≤ 1000000000000) }
    ensures { out.new ≡ sets out.old 0 (head refusal place (pos count)) }
{
    put_head(out, refusal, place as u64, count as i64);
}

// Writes what a writing gave: refusal and place, or how many bytes it wrote.
pub fn put_writing(out: &mut [i64], written: Result<usize, Refused>)
    requires in_bounds { 3 ≤ length out.old }
    requires small { SmallCount written }
    ensures { out.new ≡ sets out.old 0 (head_in written) }
{
    match written {
        Ok(count) => put_counts(out, 0, 0, count),
        Err(r) => put_counts(out, r.refusal.number(), r.place, 0),
    }
}

// The numbers of an answer about two entries: refusal and place, which of the five, position and squared distance.
fn numbers_of(s: Result<Separation, Refused>) -> [i64; 5]
    requires { Small (said_by s) }
    ensures { result ≡ layout_separation (said_by s) }
{
    match s {
        Err(r) => [r.refusal.number() as i64, r.place as i64, 0, 0, 0],
        Ok(Separation::Same) => [0, 0, 1, 0, 0],
        Ok(Separation::DifferentM) => [0, 0, 2, 0, 0],
        Ok(Separation::DifferentD) => [0, 0, 3, 0, 0],
        Ok(Separation::FirstOutside(k, z)) => [0, 0, 4, k as i64, z],
        Ok(Separation::SecondOutside(k, z)) => [0, 0, 5, k as i64, z],
    }
}

// Writes an answer about two entries.
pub fn put_separation(out: &mut [i64], s: Result<Separation, Refused>)
    requires in_bounds { 5 ≤ length out.old }
    requires small { Small (said_by s) }
    ensures { out.new ≡ sets out.old 0 (layout_separation (said_by s)) }
{
    put_run(out, 0, &numbers_of(s));
}

// 1 for yes, 0 for no.
pub fn flag(yes: bool) -> i64
    ensures { result ≡ flag yes }
{
    if yes { 1 } else { 0 }
}
