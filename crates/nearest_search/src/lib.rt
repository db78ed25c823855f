// The vector nearest to a target in the lattice of at most four reduced vectors, as section 5 of source 000 finds it (Theorem 11), on numbers: g is
// the Gram matrix, r holds the inner products of the vectors with what is left of the target, x the coefficients taken so far. The linear system
// is solved and its solution rounded (`start`), then corrected by a search around it. Up to three vectors that is the walk over the table. Of
// four, the lattice falls into layers, one for each multiple of the last vector, and the walk finds the best of a layer.
#![tactic(auto)]

ghost use Rattle.std.specs.Prelude.{◌≡◌, List, [], ◌∷◌, ℕ, ◌≤◌, ◌<◌, ℤ, pos, nat_abs, ◌*ℤ◌, get_or, take, replicate};
ghost use Rattle.integers.specs.Size.{Within};
ghost use Rattle.lattices.specs.Vector.{Vec, N, nth, comb, ◌⊖◌};
ghost use Rattle.lattices.specs.Nearest.{nearest};
ghost use Rattle.lattices.specs.Answer.{padded};
ghost use Rattle.successive_minima.specs.Laws.Digits.{Bounded};
ghost use Rattle.nearest_steps.specs.Numbers.{negative};
ghost use Rattle.nearest_search.specs.MeantNear.{MeantNear, KnownNear};
ghost use Rattle.nearest_search.specs.LayerLaws.{Passed, LayerPassed, LayerKnown};
ghost use Rattle.nearest_search.specs.Turns.{Turned, AllPassed, Descended};
ghost use Rattle.nearest_search.specs.Descent.{Layered};
ghost use Rattle.nearest_search.specs.Best.{Best};

mod start;

use row_operations::{Table, lose};

// Is e below the list of zeros?
fn negative(e: &[i64; 4]) -> bool
    ensures { result ≡ negative e.now }
{
    for z in e {
        if *z < 0 {
            return true;
        }
        if 0 < *z {
            return false;
        }
    }
    false
}

// Does the step e lead to a smaller value? It changes the squared length by v.
fn improves(v: i64, e: &[i64; 4]) -> bool
    ensures { result ≡ negative (v ∷ e.now) }
{
    v < 0 || v == 0 && negative(e)
}

// The best of layer j, by the search among the first three vectors: its list; s becomes what it leaves.
fn best(g: &Table, j: i64, s: &mut [i64; 4]) -> [i64; 4]
    requires j_bound { nat_abs j ≤ 2 }
    requires layer_known { LayerKnown g.now s.old }
    ensures { Best g.now s.old j result s.new }
{
    lose(s, j, &g[3]);
    let mut y = [0, 0, 0, j];
    nearest_steps::descend(g, 3, s, &mut y);
    y
}

// It is taken, if it has a smaller value: what the squared length changes by.
fn layer(g: &Table, j: i64, r: &mut [i64; 4], x: &mut [i64; 4]) -> Option<i64>
    requires j_bound { nat_abs j ≤ 2 }
    requires bounded { Bounded 30000000 x.old }
    requires layer_known { LayerKnown g.now r.old }
    ensures { Turned (LayerPassed g.now r.old j) g.now r.old x.old r.new x.new result }
{
    let mut s = *r;
    let e = best(g, j, &mut s);
    let v = start::gain(&e, r, &s);
    if !improves(v, &e) {
        return None;
    }
    *r = s;
    lose(x, -1, &e);
    Some(v)
}

// The same, but for a layer that is too far away: n is the squared length of what is left.
fn visit(g: &Table, n: i64, j: i64, r: &mut [i64; 4], x: &mut [i64; 4]) -> Option<i64>
    requires j_bound { nat_abs j ≤ 2 }
    requires bounded { Bounded 30000000 x.old }
    requires known_near { KnownNear 4 n g.now r.old }
    ensures { Turned (Passed n g.now r.old j) g.now r.old x.old r.new x.new result }
{
    if 16 * n < j * j * g[3][3] {
        return None;
    }
    layer(g, j, r, x)
}

// The five layers next to what is left.
const LAYERS: [i64; 5] = [0, 1, -1, 2, -2];

// The first of them whose best has a smaller value.
fn walk(g: &Table, n: i64, r: &mut [i64; 4], x: &mut [i64; 4]) -> Option<i64>
    requires bounded { Bounded 30000000 x.old }
    requires known_near { KnownNear 4 n g.now r.old }
    ensures { Turned (AllPassed n g.now r.old) g.now r.old x.old r.new x.new result }
{
    for j in &LAYERS {
        if let Some(v) = visit(g, n, *j, r, x) {
            return Some(v);
        }
    }
    None
}

// Steps to a smaller value until there is none.
fn descend(g: &Table, n: i64, r: &mut [i64; 4], x: &mut [i64; 4])
    requires x_value { x.old ≡ replicate 4 (pos 0) }
    requires known_near { KnownNear 4 n g.now r.old }
    ensures { Descended n g.now r.old r.new x.new }
{
    let mut m = n;
    while let Some(v) = walk(g, m, r, x) {
        m += v;
    }
}

// The exhaustive search of four vectors: steps through the layers, from x on. n is the squared length of what is left.
fn through_layers(g: &Table, n: i64, r: &mut [i64; 4], x: &mut [i64; 4])
    requires bounded { Bounded 30000000 x.old }
    requires known_near { KnownNear 4 n g.now r.old }
    ensures { Layered n g.now r.old x.old r.new x.new }
{
    let mut y = [0; 4];
    descend(g, n, r, &mut y);
    lose(x, -1, &y);
}

// Theorem 11: the nearest vector in the lattice of the first d of four vectors by a search around y, a solution of the linear system. n is the squared length
// of the target, r holds the inner products with it. Afterwards x holds the coefficients, and r the inner products of the vectors with what is left
// of the target. It is right whatever y is.
pub fn around(g: &Table, d: usize, n: i64, y: [f64; 4], r: &mut [i64; 4], x: &mut [i64; 4])
    requires d_bound { d ≤ 4 }
    requires x_value { x.old ≡ replicate 4 (pos 0) }
    requires known_near { KnownNear d n g.now r.old }
    ensures r_after { r.new ≡ r.old ⊖ comb (take d x.new) (take d g.now) }
    ensures x_after { (F : ℤ) (vs : List Vec) (t : Vec) → MeantNear F d vs t g.now r.old → F *ℤ n ≡ N t → x.new ≡ padded 4 (nearest (take d vs) t) }
{
    let v = start::jump(g, d, &y, r, x);
    if d == 4 {
        through_layers(g, n + v, r, x);
        return;
    }
    nearest_steps::descend(g, d, r, x);
}

// The same for the pass of a reduction, with the system solved. Of one vector the text calls it trivial; and where twice the inner product with each
// vector is no more than its squared length (i < α in the text), the solution is next to 0, and the search begins there.
pub fn among(g: &Table, d: usize, n: i64, r: &mut [i64; 4], x: &mut [i64; 4])
    requires d_nonzero { (0 < d) × (d ≤ 3) }
    requires x_value { x.old ≡ replicate 4 (pos 0) }
    requires known_near { KnownNear d n g.now r.old }
    ensures r_after { r.new ≡ r.old ⊖ comb (take d x.new) (take d g.now) }
    ensures x_after { (F : ℤ) (vs : List Vec) (t : Vec) → MeantNear F d vs t g.now r.old → F *ℤ n ≡ N t → x.new ≡ padded 4 (nearest (take d vs) t) }
{
    if d < 2 {
        nearest_steps::along(g, r, x);
        return;
    }
    if start::level(g, d, r) {
        nearest_steps::descend(g, d, r, x);
        return;
    }
    let y = linear_systems::solution(g, d, r);
    around(g, d, n, y, r, x);
}
