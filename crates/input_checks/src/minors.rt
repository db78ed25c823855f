// Minors of d vectors: the determinants of their coordinates at a choice of d of them. The first choice is nearly always one where it is not zero.
ghost use Rattle.std.specs.Prelude.{◌≡◌, [], ◌++◌, map, ℕ, ◌≤◌, ◌<◌, pos, get_or, take, drop, ◌≤ℤ◌};
ghost use Rattle.integers.specs.Filled.{filled};
ghost use Rattle.integers.specs.Size.{Within};
ghost use Rattle.lattices.specs.Vector.{N, nth};
ghost use Rattle.lattices.specs.Volume.{Index, volume};
ghost use Rattle.lattices.specs.Refusal.{most_vectors, most_coordinates};
ghost use Rattle.exterior_algebra.specs.Minors.{marks};
ghost use Rattle.input_checks.specs.Choice.{choice, places, firsts, four_at};
ghost use Rattle.input_checks.specs.Determinant.{pair_of, term_of, determinant_of, unit_rows};
ghost use Rattle.input_checks.specs.FirstMinor.{FirstMinor};

use row_operations::{Basis, Table, Vector, WIDTH};

// How many choices there are among the coordinates.
const CHOICES: usize = 1 << WIDTH;

// A choice among the coordinates: how many are taken, and which, in increasing order.
#[derive(Clone, Copy)]
struct Choice {
    pub count: usize,
    pub at: [usize; WIDTH],
}

// The choice that takes a coordinate where the number has a bit, the lowest bit for the first coordinate.
fn choice_of(number: usize) -> Choice
    ensures { (result.count ≡ marks (choice most_coordinates number)) × (result.at ≡ filled 0 most_coordinates (places 0 (choice most_coordinates number))) }
{
    let mut at = [0; WIDTH];
    let mut count = 0;
    let mut rest = number;
    for k in 0..WIDTH {
        if rest % 2 == 1 {
            at[count] = k;
            count += 1;
        }
        rest = rest / 2;
    }
    Choice { count, at }
}

// All coordinates, in order.
const IN_ORDER: [usize; WIDTH] = [0, 1, 2, 3, 4, 5, 6, 7];

// The coordinates of v at the first four places of a list.
pub fn pick(v: &Vector, at: &[usize; WIDTH]) -> [i64; 4]
    requires { (i : ℕ) → i < most_vectors → get_or at.now i 0 < most_coordinates }
    ensures { result ≡ four_at at.now v.now }
{
    let mut p = [0; 4];
    for c in 0..4 {
        p[c] = v[at[c]];
    }
    p
}

// A row of those of each of d vectors, unit rows behind them.
pub fn square(b: &Basis, at: &[usize; WIDTH], d: usize) -> Table
    requires d_le_most_vectors { d ≤ most_vectors }
    requires by_index { (i : ℕ) → i < most_vectors → get_or at.now i 0 < most_coordinates }
    ensures { result ≡ map (four_at at.now) (take d b.now) ++ drop d unit_rows }
{
    let mut t = [[1, 0, 0, 0], [0, 1, 0, 0], [0, 0, 1, 0], [0, 0, 0, 1]];
    for i in 0..d {
        t[i] = pick(&b[i], at);
    }
    t
}

// The determinant of coordinates i and j of two rows.
pub fn pair(p: &[i64; 4], q: &[i64; 4], i: usize, j: usize) -> i64
    requires i_bound { (i < 4) × (j < 4) }
    requires by_index { (c : ℕ) → Within 20000 (nth p.now c) }
    requires by_index_2 { (c : ℕ) → Within 20000 (nth q.now c) }
    ensures { (result ≡ pair_of p.now q.now i j) × Within 800000000 result }
{
    p[i] * q[j] - p[j] * q[i]
}

// That of the first two rows times that of the last two.
fn term(t: &Table, i: usize, j: usize, k: usize, l: usize) -> i64
    requires i_bound { (i < 4) × ((j < 4) × ((k < 4) × (l < 4))) }
    requires by_index { (r : ℕ) (c : ℕ) → Within 20000 (nth (get_or t.now r []) c) }
    ensures { (result ≡ term_of t.now i j k l) × Within 640000000000000000 result }
{
    pair(&t[0], &t[1], i, j) * pair(&t[2], &t[3], k, l)
}

// The determinant of four rows.
fn determinant(t: &Table) -> i64
    requires { (r : ℕ) (c : ℕ) → Within 20000 (nth (get_or t.now r []) c) }
    ensures { result ≡ determinant_of t.now }
{
    term(t, 0, 1, 2, 3) - term(t, 0, 2, 1, 3) + term(t, 0, 3, 1, 2) + term(t, 1, 2, 0, 3)
        - term(t, 1, 3, 0, 2)
        + term(t, 2, 3, 0, 1)
}

// The minor of d vectors at the coordinates in the first d places of a list.
pub fn minor_of(b: &Basis, at: &[usize; WIDTH], d: usize) -> i64
    requires d_le_most_vectors { d ≤ most_vectors }
    requires by_index { (i : ℕ) → i < d → N (get_or b.now i []) ≤ℤ pos 400000000 }
    requires by_index_2 { (i : ℕ) → i < most_vectors → get_or at.now i 0 < most_coordinates }
    ensures { (s : Index) → marks s ≡ d → take d at.now ≡ places 0 s → result ≡ volume (take d b.now) s }
{
    if d == 2 {
        return pair(&pick(&b[0], at), &pick(&b[1], at), 0, 1);
    }
    determinant(&square(b, at, d))
}

// A choice of coordinates and the minor there.
#[derive(Clone, Copy)]
pub struct Minor {
    pub at: [usize; WIDTH],
    pub minor: i64,
}

// The minor of d vectors at the choice with that number: 0 where the choice takes more or fewer coordinates than there are vectors.
fn minor_at(b: &Basis, d: usize, number: usize) -> Minor
    requires d_le_most_vectors { d ≤ most_vectors }
    requires by_index { (i : ℕ) → i < d → N (get_or b.now i []) ≤ℤ pos 400000000 }
    ensures { (result.minor ≡ volume (take d b.now) (choice most_coordinates number)) × (result.at ≡ filled 0 most_coordinates (places 0 (choice most_coordinates number))) }
{
    let Choice { count, at } = choice_of(number);
    let minor = if count == d { minor_of(b, &at, d) } else { 0 };
    Minor { at, minor }
}

// The first minor by number that is not zero.
pub fn other_minor(b: &Basis, d: usize) -> Option<Minor>
    requires d_le_most_vectors { d ≤ most_vectors }
    requires by_index { (i : ℕ) → i < d → N (get_or b.now i []) ≤ℤ pos 400000000 }
    ensures { FirstMinor (take d b.now) result }
{
    for number in 0..CHOICES {
        let m = minor_at(b, d, number);
        if m.minor != 0 {
            return Some(m);
        }
    }
    None
}

// The minor of d vectors at their first d coordinates.
pub fn leading_minor(b: &Basis, d: usize) -> i64
    requires d_le_most_vectors { d ≤ most_vectors }
    requires by_index { (i : ℕ) → i < d → N (get_or b.now i []) ≤ℤ pos 400000000 }
    ensures { result ≡ volume (take d b.now) (firsts most_coordinates d) }
{
    minor_of(b, &IN_ORDER, d)
}

// A minor of d vectors that is not zero, if there is one. The first d coordinates are tried first.
pub fn first_minor(b: &Basis, d: usize) -> Option<Minor>
    requires d_le_most_vectors { d ≤ most_vectors }
    requires by_index { (i : ℕ) → i < d → N (get_or b.now i []) ≤ℤ pos 400000000 }
    ensures { FirstMinor (take d b.now) result }
{
    let minor = leading_minor(b, d);
    if minor != 0 {
        return Some(Minor {
            at: IN_ORDER,
            minor,
        });
    }
    other_minor(b, d)
}
