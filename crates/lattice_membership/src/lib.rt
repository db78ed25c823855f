// Exact membership without a search, on a lattice that is made once for a reduced basis: Cramer's rule on one minor that is not zero,
// then a comparison in every coordinate.
#![tactic(auto)]

ghost use Rattle.std.specs.Prelude.{◌≡◌, ◌≢◌, not, [], map, ℕ, ◌*◌, ◌≤◌, ◌<◌, pos, length, get_or, take, ◌≤ℤ◌};
ghost use Rattle.integers.specs.Every.{any, every};
ghost use Rattle.integers.specs.Size.{Within};
ghost use Rattle.lattices.specs.Vector.{N, nth, dot};
ghost use Rattle.lattices.specs.Volume.{volume};
ghost use Rattle.lattices.specs.Answer.{padded};
ghost use Rattle.lattices.specs.Refusal.{most_vectors, most_coordinates, vectors_of};
ghost use Rattle.integers.specs.All.{All};
ghost use Rattle.lattice_membership.specs.Nonzero.{nonzero};
ghost use Rattle.successive_minima.specs.Member.{is_member};
ghost use Rattle.input_checks.specs.Determinant.{Small, without, three_of, cofactors_of};
ghost use Rattle.lattice_membership.specs.Cofactor.{cofactor_rows};
ghost use Rattle.lattice_membership.specs.Known.{ReducedBasis, Known, KnownChoice, left_in, vectors_in, is_whole, same_size};

use input_checks::minors::{Minor, first_minor, minor_of, pair, pick, square};
use row_operations::{Basis, Table, Vector, WIDTH, dot};

// No coefficient of a vector within the length limit is larger, on a reduced basis.
const MOST_TIMES: i64 = 1080000;

// Row i of those that are left without row j.
fn other(t: &Table, j: usize, i: usize) -> [i64; 4]
    requires { i < 3 }
    ensures { result ≡ get_or (without j t.now) i [] }
{
    if i < j { t[i] } else { t[i + 1] }
}

// The determinant of coordinates i, j and k of three rows.
fn three(p: &[i64; 4], q: &[i64; 4], r: &[i64; 4], i: usize, j: usize, k: usize) -> i64
    requires i_bound { (i < 4) × ((j < 4) × (k < 4)) }
    requires small { (Small p.now) × ((Small q.now) × (Small r.now)) }
    ensures { (result ≡ three_of p.now q.now r.now i j k) × Within 48000000000000 result }
{
    p[i] * pair(q, r, j, k) - p[j] * pair(q, r, i, k) + p[k] * pair(q, r, i, j)
}

// What the coordinates of another row count in the determinant with it in the place of row j: two rows change places where the sign does.
fn cofactors(t: &Table, j: usize) -> [i64; 4]
    requires j_bound { j < 4 }
    requires by_index { (i : ℕ) (c : ℕ) → Within 20000 (nth (get_or t.now i []) c) }
    ensures { result ≡ cofactors_of t.now j }
{
    let odd = j % 2;
    let p = other(t, j, odd);
    let q = other(t, j, 1 - odd);
    let r = other(t, j, 2);
    [
        three(&p, &q, &r, 1, 2, 3),
        three(&p, &q, &r, 0, 3, 2),
        three(&p, &q, &r, 0, 1, 3),
        three(&p, &q, &r, 0, 2, 1),
    ]
}

// The same for each of the first d rows.
fn cofactor_rows(t: &Table, d: usize) -> Table
    requires d_le_most_vectors { d ≤ most_vectors }
    requires by_index { (i : ℕ) (c : ℕ) → Within 20000 (nth (get_or t.now i []) c) }
    ensures { result ≡ cofactor_rows t.now d }
{
    let mut rows = [[0; 4]; 4];
    for j in 0..d {
        rows[j] = cofactors(t, j);
    }
    rows
}

// A lattice of d vectors with m coordinates: what a reduction leaves, its vectors, their squared lengths and how many passes it took; and what
// membership needs: the choice of d coordinates, the minor there, which is not zero, and for each vector the numbers that the chosen
// coordinates of another one count in the minor with it in that vector's place.
#[derive(Clone, Copy)]
pub struct Lattice {
    pub d: usize,
    pub m: usize,
    pub vectors: Basis,
    pub squares: [i64; 4],
    pub passes: u64,
    pub choice: [usize; WIDTH],
    pub minor: i64,
    pub cofactors: Table,
}

// The lattice of the first d vectors, which are reduced, with their m, their squared lengths and their passes.
pub fn lattice_of(vectors: Basis, d: usize, m: usize, squares: [i64; 4], passes: u64) -> Lattice
    requires { ReducedBasis d vectors }
    ensures known { Known result }
    ensures chosen { KnownChoice result }
    ensures result_value { left_in result ≡ record { d = d; m = m; vectors = vectors; squares = squares; passes = passes } }
{
    let Minor { at, minor } = first_minor(&vectors, d).unwrap();
    Lattice {
        d,
        m,
        vectors,
        squares,
        passes,
        choice: at,
        minor,
        cofactors: cofactor_rows(&square(&vectors, &at, d), d),
    }
}

// Whether n is a whole multiple of m, and not by more than a coefficient can be.
fn whole(n: i64, m: i64) -> bool
    requires within { Within 3840000000000000000 n }
    requires m_nonzero { m ≢ pos 0 }
    ensures { result ≡ is_whole n m }
{
    if n % m != 0 {
        return false;
    }
    let q = n / m;
    -MOST_TIMES <= q && q <= MOST_TIMES
}

// Whether every coordinate is zero.
fn is_zero(v: &Vector) -> bool
    ensures { result ≡ not (any nonzero v.now) }
{
    for x in v {
        if *x != 0 {
            return false;
        }
    }
    true
}

// Whether v is in the lattice: left at the first coefficient that is not whole or too large, then compared in every coordinate.
pub fn member(l: &Lattice, v: &Vector) -> bool
    requires known { Known l.now }
    requires v_bound { N v.now ≤ℤ pos 400000000 }
    ensures { result ≡ is_member (vectors_in l.now) v.now }
{
    let p = pick(v, &l.choice);
    let mut rest = *v;
    for j in 0..l.d {
        // the minor with v in the place of vector j
        let n = dot(&l.cofactors[j], &p);
        if !whole(n, l.minor) {
            return false;
        }
        row_operations::lose(&mut rest, n / l.minor, &l.vectors[j]);
    }
    is_zero(&rest)
}

// Whether the first `count` vectors are all in the lattice. The last, mostly the longest, is tried first: other lattices often have the short ones in common.
pub fn holds_all(l: &Lattice, vectors: &Basis, count: usize) -> bool
    requires known { Known l.now }
    requires count_le_most_vectors { count ≤ most_vectors }
    requires by_index { (i : ℕ) → i < count → N (get_or vectors.now i []) ≤ℤ pos 400000000 }
    ensures { result ≡ every (is_member (vectors_in l.now)) (take count vectors.now) }
{
    for i in (0..count).rev() {
        if !member(l, &vectors[i]) {
            return false;
        }
    }
    true
}

// Whether a lattice holds another: its vectors are all in it.
pub fn holds_lattice(l: &Lattice, other: &Lattice) -> bool
    requires { (Known l.now) × (Known other.now) }
    ensures { result ≡ every (is_member (vectors_in l.now)) (vectors_in other.now) }
{
    holds_all(l, &other.vectors, other.d)
}

// Whether d vectors of m coordinates each, vector by vector, are all in the lattice.
pub fn holds_numbers(l: &Lattice, numbers: &[i64], d: usize, m: usize) -> bool
    requires known { Known l.now }
    requires shape { (d ≤ most_vectors) × (m ≤ most_coordinates) }
    requires numbers_len { length numbers.now ≡ d * m }
    requires short { All (λ v. N v ≤ℤ pos 400000000) (vectors_of d m numbers.now) }
    ensures { result ≡ every (is_member (vectors_in l.now)) (map (padded most_coordinates) (vectors_of d m numbers.now)) }
{
    holds_all(l, &input_checks::basis(numbers, d, m), d)
}

// Whether two numbers have the same size.
fn same_size(a: i64, b: i64) -> bool
    requires { Within 160000000000000000 b }
    ensures { result ≡ same_size a b }
{
    a == b || a == -b
}

// Whether the minor of as many vectors at the lattice's choice of coordinates has the size of its own: where it holds them, they then generate it.
pub fn same_minor(l: &Lattice, b: &Basis) -> bool
    requires chosen { KnownChoice l.now }
    requires by_index { (i : ℕ) → i < l.now.d → N (get_or b.now i []) ≤ℤ pos 400000000 }
    ensures { (k : KnownChoice l.now) → result ≡ same_size (volume (take l.now.d b.now) k.known.index) l.now.minor }
{
    same_size(minor_of(b, &l.choice, l.d), l.minor)
}
