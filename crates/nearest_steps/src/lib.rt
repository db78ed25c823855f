// The search for the nearest vector in the lattice of at most three reduced vectors (source 000, section 5: "corrected by a suitable exhaustive
// search"), on numbers: g is the Gram matrix of four vectors, of which the first k are searched, r holds the inner products of the four with what
// is left of the target, and x the coefficients taken so far.
#![tactic(auto)]

ghost use Rattle.std.specs.Prelude.{◌≡◌, [], ℕ, ◌+◌, ◌≤◌, ◌<◌, pos, nat_abs, ◌+ℤ◌, ◌-ℤ◌, ◌*ℤ◌, get_or, set, ◌<ℤ◌};
ghost use Rattle.integers.specs.Size.{Within};
ghost use Rattle.lattices.specs.Vector.{nth, ◌⊕◌, ◌⊖◌, ◌⊙◌};
ghost use Rattle.lattices.specs.Laws.Vector.{◌≈◌};
ghost use Rattle.successive_minima.specs.Laws.Digits.{Bounded};
ghost use Rattle.row_operations.specs.Minus.{room};
ghost use Rattle.nearest_steps.specs.Meant.{Known};
ghost use Rattle.nearest_steps.specs.Numbers.{moved, Sized};
ghost use Rattle.nearest_steps.specs.Multiples.{Still};
ghost use Rattle.nearest_steps.specs.Stepped.{Stepped, Descends};

mod table;

use row_operations::Table;
pub use row_operations::lose;

// The multiple of a vector nearest to what is left, of two equally near the smaller: n is the vector's squared length, p its inner product with
// what is left.
fn multiple(n: i64, p: i64) -> i64
    requires within { Within 400000000 n }
    requires pos_bound { pos 0 <ℤ n }
    requires within_2 { Within 2000000000 p }
    ensures within_3 { Within 5000000000 result }
    ensures still { Still n (p -ℤ result *ℤ n) }
{
    let twice = 2 * p;
    if n < twice {
        return (twice + n - 1) / (2 * n);
    }
    if twice <= -n {
        return (twice - n) / (2 * n);
    }
    0
}

// q times vector i is taken away.
fn take_multiple(g: &Table, i: usize, q: i64, r: &mut [i64; 4], x: &mut [i64; 4])
    requires i_bound { i < 3 }
    requires q_bound { nat_abs (nth x.old i) + nat_abs q ≤ room }
    requires by_index { (j : ℕ) → nat_abs (nth r.old j) + nat_abs (q *ℤ nth (get_or g.now i []) j) ≤ room }
    ensures r_after { r.new ≡ r.old ⊖ q ⊙ get_or g.now i [] }
    ensures x_after { x.new ≡ set x.old i (nth x.old i +ℤ q) }
{
    x[i] += q;
    lose(r, q, &g[i]);
}

// One vector, where the text calls its step trivial: the nearest multiple is taken away.
pub fn along(g: &Table, r: &mut [i64; 4], x: &mut [i64; 4])
    requires known { Known 1 g.now r.old }
    requires bounded { Bounded 30000000 x.old }
    ensures { Descends 1 g.now r.old x.old r.new x.new }
{
    let q = multiple(g[0][0], r[0]);
    if q != 0 {
        take_multiple(g, 0, q, r, x);
    }
}

// The combination e of the first three vectors is taken away: what is left of the inner products, by the formula of section 5.
fn take_list(g: &Table, e: &[i64; 3], r: &mut [i64; 4], x: &mut [i64; 4])
    requires sized { Sized g.now r.old }
    requires bounded { Bounded 20000000000 x.old }
    requires bounded_2 { Bounded 1 e.now }
    ensures x_after { x.new ≡ x.old ⊕ e.now }
    ensures new { r.new ≈ moved g.now r.old e.now }
{
    for j in 0..3 {
        take_multiple(g, j, e[j], r, x);
    }
}

// A step of the table to a smaller value. Whether there was one.
fn step(g: &Table, k: usize, r: &mut [i64; 4], x: &mut [i64; 4]) -> bool
    requires k_bound { k ≤ 3 }
    requires known { Known k g.now r.old }
    requires bounded { Bounded 20000000000 x.old }
    ensures { Stepped k g.now r.old x.old r.new x.new result }
{
    let Some(at) = table::place(g, k, r) else {
        return false;
    };
    take_list(g, &table::LISTS[at], r, x);
    true
}

// The exhaustive search around x among the first k of four vectors, from numbers alone: g is the Gram matrix of the four, r holds their inner products
// with what x leaves of the target. Steps of the table to a smaller value, until there is none: then x is nearest.
pub fn descend(g: &Table, k: usize, r: &mut [i64; 4], x: &mut [i64; 4])
    requires k_bound { k ≤ 3 }
    requires known { Known k g.now r.old }
    requires bounded { Bounded 30000000 x.old }
    ensures { Descends k g.now r.old x.old r.new x.new }
{
    while step(g, k, r, x) {}
}
