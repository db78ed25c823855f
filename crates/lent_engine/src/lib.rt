// The engine's services with their answers written to lent numbers; include/raghymtos.h gives their order.
#![tactic(auto)]

ghost use Rattle.std.specs.Prelude.{◌≡◌, true, [], ◌++◌, ◌-◌, ◌≤◌, leb, length, pos, replicate, Ok};
ghost use Rattle.std.proofs.lemmas.List.Edits.{sets};
ghost use Rattle.lattices.specs.Answer.{reduction_of, nearest_of, membership_of};
ghost use Rattle.solutions.specs.Solution.{TenthsFor};
ghost use Rattle.refusals.specs.Number.{number_of};
ghost use Rattle.engine.specs.Answers.{lent_in, nearest_in};
ghost use Rattle.lent_numbers.specs.Layout.{reduction_count, nearest_count, head, layout, layout_nearest, tenths_in, layout_membership, written};
ghost use Rattle.lent_engine.specs.Shape.{Shape};
ghost use Rattle.lent_engine.specs.NearestShape.{NearestShape};

use engine::NearestVector;
use gram_matrix::Work;
use lent_numbers::{put_head, put_rows, put_run};
use refusals::Refusal;
use row_operations::WIDTH;

// Where the parts of a reduction's answer begin, and how many numbers it takes.
const VECTORS_AT: usize = 7;

const U_AT: usize = VECTORS_AT + 4 * WIDTH;

const V_AT: usize = U_AT + 16;

const REDUCTION: usize = V_AT + 16;

// How many numbers the answer with a nearest vector takes.
const NEAREST: usize = 11 + WIDTH;

// How many numbers the answer of a membership takes.
const MEMBER: usize = 3;

// Writes an answer of `count` numbers to what was refused: the number of the refusal, then zeros.
fn put_refusal(out: &mut [i64], count: usize, e: Refusal)
    requires { (3 ≤ count) × (count ≤ length out.old) }
    ensures { out.new ≡ sets out.old 0 (head (number_of e) 0 (pos 0) ++ replicate (count - 3) (pos 0)) }
{
    put_head(out, e.number(), 0, 0);
    out[3..count].fill(0);
}

// Writes what a reduction leaves: the passes, the squared lengths, the vectors, U and V.
fn put_reduction(out: &mut [i64], squares: &[i64; 4], w: &Work)
    requires room { reduction_count ≤ length out.old }
    requires shape { Shape (lent_in (Ok squares.now) w.now) }
    ensures { out.new ≡ sets out.old 0 (layout (lent_in (Ok squares.now) w.now)) }
{
    put_head(out, 0, 0, w.passes as i64);
    put_run(out, 3, squares);
    put_rows(out, VECTORS_AT, &w.vectors);
    put_rows(out, U_AT, &w.u);
    put_rows(out, V_AT, &w.v);
}

// Reduces d vectors of m coordinates each. The answer is written to the first numbers of `out`; one with too few stays as it is. It is written from
// the lent place where the steps leave it: handed out in a Result the arrays are copied three times more.
pub fn reduce(numbers: &[i64], d: usize, m: usize, out: &mut [i64]) -> bool
    ensures value { result ≡ leb reduction_count (length out.old) }
    ensures out_after { out.new ≡ written out.old reduction_count (layout (reduction_of (record { numbers = numbers.entry.now; d = d; m = m; target = [] }))) }
{
    if out.len() < REDUCTION {
        return false;
    }
    let mut w = engine::nothing();
    match engine::reduced(numbers, d, m, &mut w) {
        Ok(squares) => put_reduction(out, &squares, &w),
        Err(e) => put_refusal(out, REDUCTION, e),
    }
    true
}

// Writes a nearest vector: the squared distance, the coefficients, the solution in tenths, the vector.
fn put_nearest(out: &mut [i64], a: NearestVector)
    requires room { nearest_count ≤ length out.old }
    requires shape { NearestShape (nearest_in (Ok a)) }
    ensures { out.new ≡ sets out.old 0 (layout_nearest (nearest_in (Ok a)) a.tenths) }
{
    put_head(out, 0, 0, a.square);
    put_run(out, 3, &a.coefficients);
    put_run(out, 7, &a.tenths);
    put_run(out, 11, &a.vector);
}

// Finds the vector nearest to the target in the lattice of d vectors of m coordinates each. The answer is written to the first
// numbers of `out`; one with too few stays as it is.
pub fn nearest(numbers: &[i64], d: usize, m: usize, target: &[i64], out: &mut [i64]) -> bool
    ensures value { result ≡ leb nearest_count (length out.old) }
    ensures out_after { out.new ≡ written out.old nearest_count (layout_nearest (nearest_of (record { numbers = numbers.entry.now; d = d; m = m; target = target.now })) (tenths_in out.new)) }
    ensures tenths_for { result ≡ true → TenthsFor (record { numbers = numbers.entry.now; d = d; m = m; target = target.now }) (tenths_in out.new) }
{
    if out.len() < NEAREST {
        return false;
    }
    match engine::nearest(numbers, d, m, target) {
        Ok(a) => put_nearest(out, a),
        Err(e) => put_refusal(out, NEAREST, e),
    }
    true
}

// Whether the target is in the lattice of d vectors of m coordinates each. The answer is written to the first 3 numbers of `out`; a
// shorter `out` stays as it is.
pub fn member(numbers: &[i64], d: usize, m: usize, target: &[i64], out: &mut [i64]) -> bool
    ensures value { result ≡ leb 3 (length out.old) }
    ensures out_after { out.new ≡ written out.old 3 (layout_membership (membership_of (record { numbers = numbers.entry.now; d = d; m = m; target = target.now }))) }
{
    if out.len() < MEMBER {
        return false;
    }
    match engine::membership(numbers, d, m, target) {
        Ok(yes) => put_head(out, 0, 0, lent_numbers::flag(yes)),
        Err(e) => put_head(out, e.number(), 0, 0),
    }
    true
}
