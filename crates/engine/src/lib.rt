// The lattice engine: greedy reduction with its tables, proved equal to the definition.
#![tactic(auto)]

ghost use Rattle.std.specs.Prelude.{◌≡◌, [], ◌≤◌, pos, take};
ghost use Rattle.std.specs.Int.Signed.{lt_z};
ghost use Rattle.lattices.specs.Vector.{N};
ghost use Rattle.lattices.specs.Greedy.{units};
ghost use Rattle.lattices.specs.Answer.{reduction_of, nearest_of, table};
ghost use Rattle.solutions.specs.Solution.{TenthsFor};
ghost use Rattle.lattices.specs.Refusal.{most_vectors, most_coordinates, most_square, vectors_of, first_of, vector_checks};
ghost use Rattle.integers.specs.Every.{any};
ghost use Rattle.refusals.specs.Number.{refusal_in};
ghost use Rattle.gram_matrix.specs.Formed.{formed};
ghost use Rattle.nearest_steps.specs.Formed.{GramOf};
ghost use Rattle.nearest_search.specs.Near.{Near};
ghost use Rattle.engine.specs.Answers.{lent_in, reduction_in, nearest_in, tenths_in};
ghost use Rattle.greedy_steps.specs.Repeat.{Reducible, Outcome};
ghost use Rattle.engine.specs.Laws.Answer.{Left};
ghost use Rattle.engine.specs.Laws.Nearest.{Answered};

pub use members::membership;

pub mod members;

use gram_matrix::Work;
use nearest_vectors::Found;
use refusals::Refusal;
use row_operations::{Basis, Table, TableRow, Vector, VectorRow, WIDTH, dot, packed};

// The answer of a reduction. Unused places hold 0.
#[derive(Clone, Copy)]
pub struct Reduction {
    pub vectors: [VectorRow; 4],
    pub u: [TableRow; 4],
    pub v: [TableRow; 4],
    pub squares: [i64; 4],
    pub passes: u64,
}

// The answer of a search for the nearest vector: the vector, its coefficients on the reduced basis, the solution there in tenths, its squared
// distance from the target. Unused places hold 0.
#[derive(Clone, Copy)]
pub struct NearestVector {
    pub vector: Vector,
    pub coefficients: [i64; 4],
    pub tenths: [i64; 4],
    pub square: i64,
}

// Whether a squared length is over the limit.
fn any_over(squares: &[i64]) -> bool
    ensures { result ≡ any (lt_z (pos most_square)) squares.now }
{
    for n in squares {
        if input_checks::MOST_SQUARE < *n {
            return true;
        }
    }
    false
}

// The first refusal that applies to d vectors of m coordinates; if none does, b holds them and g their Gram matrix, whose diagonal has their
// squared lengths. What is found stands in lent places, as in `stepped`: handed out in a Result the arrays are copied at each `?`, which took 306
// instructions more for a reduction.
fn begun(numbers: &[i64], d: usize, m: usize, b: &mut Basis, g: &mut Table) -> Result<(), Refusal>
    ensures value { refusal_in result ≡ first_of vector_checks (record { numbers = numbers.entry.now; d = d; m = m; target = [] }) }
    ensures begun { refusal_in result ≡ 0 → (b.new ≡ table most_vectors most_coordinates (vectors_of d m numbers.now)) × (g.new ≡ formed (take d b.new)) }
{
    input_checks::shaped(numbers, d, m)?;
    *b = input_checks::basis(numbers, d, m);
    *g = gram_matrix::formed(b, d);
    if any_over(&gram_matrix::diagonal(g)[..d]) {
        return Err(Refusal::TooLong);
    }
    if input_checks::dependent(b, d) {
        return Err(Refusal::Dependent);
    }
    Ok(())
}

// No vectors and no tables: room for what the steps leave.
pub fn nothing() -> Work
    ensures { result ≡ record { vectors = table most_vectors most_coordinates []; u = table most_vectors most_vectors []; v = table most_vectors most_vectors []; passes = 0 } }
{
    Work {
        vectors: [[0; WIDTH]; 4],
        u: [[0; 4]; 4],
        v: [[0; 4]; 4],
        passes: 0,
    }
}

// The steps on the first d vectors of w, whose Gram matrix is g: the tables begin as units.
fn take_steps(g: &mut Table, w: &mut Work, d: usize)
    requires d_bound { d ≤ 4 }
    requires reducible { Reducible d 0 g.old w.old.vectors (table 4 4 (units d)) (table 4 4 (units d)) }
    ensures { (p : Reducible d 0 g.old w.old.vectors (table 4 4 (units d)) (table 4 4 (units d))) → Outcome p.kind d 0 p.rows g.new w.new }
{
    let e = row_operations::unit_table(d);
    w.u = e;
    w.v = e;
    w.passes = 0;
    *w = greedy_steps::reduce_first(g, *w, d);
}

// What the steps leave of d vectors of m coordinates, vector by vector, or the first refusal that applies. The Gram matrix is formed once.
fn stepped(numbers: &[i64], d: usize, m: usize, g: &mut Table, w: &mut Work) -> Result<(), Refusal>
    ensures value { refusal_in result ≡ first_of vector_checks (record { numbers = numbers.entry.now; d = d; m = m; target = [] }) }
    ensures reduced { refusal_in result ≡ 0 → Left (record { numbers = numbers.entry.now; d = d; m = m; target = [] }) g.new w.new }
{
    begun(numbers, d, m, &mut w.vectors, g)?;
    take_steps(g, w, d);
    Ok(())
}

// A reduction that hands out the squared lengths and leaves all else in w, where a refusal leaves zeros.
pub fn reduced(numbers: &[i64], d: usize, m: usize, w: &mut Work) -> Result<[i64; 4], Refusal>
    ensures { lent_in result w.new ≡ reduction_of (record { numbers = numbers.entry.now; d = d; m = m; target = [] }) }
{
    let mut g = [[0; 4]; 4];
    match stepped(numbers, d, m, &mut g, w) {
        Ok(()) => Ok(gram_matrix::diagonal(&g)),
        Err(e) => {
            *w = nothing();
            Err(e)
        }
    }
}

// The answer put together.
fn finished(squares: [i64; 4], w: &Work) -> Reduction
    ensures { reduction_in (Ok result) ≡ lent_in (Ok squares) w.now }
{
    Reduction {
        vectors: packed(&w.vectors),
        u: packed(&w.u),
        v: packed(&w.v),
        squares,
        passes: w.passes,
    }
}

// Reduction: d vectors of m coordinates each, vector by vector.
pub fn reduce(numbers: &[i64], d: usize, m: usize) -> Result<Reduction, Refusal>
    ensures { reduction_in result ≡ reduction_of (record { numbers = numbers.entry.now; d = d; m = m; target = [] }) }
{
    let mut w = nothing();
    let squares = reduced(numbers, d, m, &mut w)?;
    Ok(finished(squares, &w))
}

// The vector nearest to t in the lattice of the first d vectors of b, found on their Gram matrix g. n is the squared length of t.
fn searched(g: &Table, b: &Basis, d: usize, n: i64, t: &Vector) -> NearestVector
    requires d_bound { d ≤ 4 }
    requires n_value { n ≡ N t.now }
    requires near { Near d b.now t.now }
    requires gram_of { GramOf (take d b.now) g.now }
    ensures { Answered d b.now t.now result }
{
    let mut rest = *t;
    let Found {
        coefficients,
        tenths,
    } = nearest_vectors::lose_nearest(g, b, d, n, &mut rest);
    // t less what is left of it
    let mut vector = *t;
    row_operations::lose(&mut vector, 1, &rest);
    NearestVector {
        vector,
        coefficients,
        tenths,
        square: dot(&rest, &rest),
    }
}

// Nearest: d vectors of m coordinates each, vector by vector, and a target of m coordinates. Where neither is refused, the basis is reduced, and
// the search goes on the Gram matrix that the reduction leaves.
pub fn nearest(
    numbers: &[i64],
    d: usize,
    m: usize,
    target: &[i64],
) -> Result<NearestVector, Refusal>
    ensures value { nearest_in result ≡ nearest_of (record { numbers = numbers.entry.now; d = d; m = m; target = target.now }) }
    ensures tenths_for { TenthsFor (record { numbers = numbers.entry.now; d = d; m = m; target = target.now }) (tenths_in result) }
{
    let mut g = [[0; 4]; 4];
    let mut w = nothing();
    begun(numbers, d, m, &mut w.vectors, &mut g)?;
    let t = input_checks::target(target, m)?;
    take_steps(&mut g, &mut w, d);
    Ok(searched(&g, &w.vectors, d, dot(&t, &t), &t))
}
