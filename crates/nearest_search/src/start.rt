// The start of the search: the solution of the linear system, rounded ("an approximation of the coordinates of the closest vector is computed using
// linear algebra"), and what is left of the inner products and of the squared length, by the text's formulas. Nothing is said of how near the start
// is, and nothing depends on it: one that does not shorten is not taken.
ghost use Rattle.std.specs.Prelude.{◌≡◌, [], ℕ, ◌+◌, ◌≤◌, ◌<◌, pos, neg_ℤ, nat_abs, ◌+ℤ◌, ◌*ℤ◌, length, get_or, replicate};
ghost use Rattle.integers.specs.Size.{Within};
ghost use Rattle.lattices.specs.Vector.{nth, dot};
ghost use Rattle.lattices.specs.Laws.Vector.{◌≈◌};
ghost use Rattle.successive_minima.specs.Laws.Digits.{Bounded};
ghost use Rattle.row_operations.specs.Minus.{room};
ghost use Rattle.nearest_steps.specs.Meant.{Known};
ghost use Rattle.nearest_steps.specs.Numbers.{moved};
ghost use Rattle.nearest_search.specs.Turns.{Jumped};

use row_operations::{Table, dot, lose, lose_combination};

// The solution of equation (1), rounded; 0 from place d on.
fn whole(y: &[f64; 4], d: usize) -> [i64; 4]
    requires { d ≤ 4 }
    ensures bounded { Bounded 32768 result }
    ensures by_index { (j : ℕ) → d ≤ j → nth result j ≡ pos 0 }
{
    let mut e = [0; 4];
    for i in 0..d {
        e[i] = linear_systems::rounded(y[i]);
    }
    e
}

// What the step e changes the squared length by, where it leaves s of r; in the text Σ e_i²·N(b_i) + 2·Σ e_i·e_j·<b_i, b_j> − 2·Σ e_i·<b_i, t>, which is
// −Σ e_i·(r_i + s_i).
pub fn gain(e: &[i64; 4], r: &[i64; 4], s: &[i64; 4]) -> i64
    requires by_index { (i : ℕ) → nat_abs (nth r.now i) + nat_abs (nth s.now i) ≤ room }
    requires by_index_2 { (i : ℕ) → Within 2000000000000000000 (nth e.now i *ℤ (nth r.now i +ℤ nth s.now i)) }
    ensures { result ≡ neg_ℤ (dot e.now r.now +ℤ dot e.now s.now) }
{
    let mut w = *r;
    lose(&mut w, -1, s);
    -dot(e, &w)
}

// The rounded solution is taken, if it shortens. What the squared length changes by.
pub fn jump(g: &Table, d: usize, y: &[f64; 4], r: &mut [i64; 4], x: &mut [i64; 4]) -> i64
    requires d_bound { d ≤ 4 }
    requires x_value { x.old ≡ replicate 4 (pos 0) }
    requires known { Known d g.now r.old }
    ensures { Jumped d g.now r.old x.old r.new x.new result }
{
    let e = whole(y, d);
    let mut s = *r;
    // what is left of the inner products, by the text's formula: <b_i, t − c> = <b_i, t> − Σ e_j·<b_i, b_j>
    lose_combination(&mut s, g, d, &e);
    let v = gain(&e, r, &s);
    if 0 <= v {
        return 0;
    }
    *r = s;
    *x = e;
    v
}

// Whether 2·|<b_i, t>| is no more than the squared length for each of the first d vectors, of at most three.
pub fn level(g: &Table, d: usize, r: &[i64; 4]) -> bool
    requires by_index { (i j : ℕ) → Within 400000000 (nth (get_or g.now i []) j) }
    requires bounded { Bounded 2000000000 r.now }
{
    for i in 0..d.min(3) {
        let n = g[i][i];
        let p = 2 * r[i];
        if n < p || p < -n {
            return false;
        }
    }
    true
}
