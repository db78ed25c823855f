// The greedy steps on the Gram matrix: a pass, and the reduction of the first n rows on one vector fewer at each call of itself.
#![tactic(auto)]

ghost use Rattle.std.specs.Prelude.{◌≡◌, ◌≤◌, ◌<◌};
ghost use Rattle.gram_matrix.specs.Work.{Belongs};
ghost use Rattle.greedy_steps.specs.State.{pass_rows};
ghost use Rattle.greedy_steps.specs.Tables.{Passable};
ghost use Rattle.greedy_steps.specs.Repeat.{Reducible, Outcome};

use gram_matrix::Work;
use row_operations::Table;

// Steps 4 and 5 for row k, the rows before it being reduced: the vector nearest to it in their lattice is subtracted from it.
// The search leaves the inner products of what is left, which are the new row of the Gram matrix (Theorem 11 with row k as the target).
fn pass(g: &mut Table, w: &mut Work, k: usize)
    requires k_nonzero { (0 < k) × (k ≤ 3) }
    requires passable { Passable k g.old w.old.vectors w.old.u w.old.v }
    ensures belongs { (p : Passable k g.old w.old.vectors w.old.u w.old.v) → Belongs p.kind (pass_rows k p.rows) g.new w.new }
    ensures passes { w.new.passes ≡ w.old.passes }
{
    let mut r = g[k];
    let mut x = [0; 4];
    nearest_search::among(g, k, r[k], &mut r, &mut x);
    gram_matrix::lose_combination(w, k, &x);
    gram_matrix::cross(g, k, &r, &x);
}

// Steps 2 to 6 for the first n rows, of two or more, on one vector fewer at each call of itself. The passes are counted on from those made so far.
// The Gram matrix is lent to each call.
fn turns(g: &mut Table, mut w: Work, n: usize) -> Work
    requires n_bound { (2 ≤ n) × (n ≤ 4) }
    requires reducible { Reducible n w.passes g.old w.vectors w.u w.v }
    ensures { (p : Reducible n w.passes g.old w.vectors w.u w.v) → Outcome p.kind n w.passes p.rows g.new result }
{
    loop {
        gram_matrix::order(g, &mut w, n);
        if 2 < n {
            w = turns(g, w, n - 1);
        }
        pass(g, &mut w, n - 1);
        w.passes += 1;
        if !gram_matrix::shorter(g, n - 1) {
            break w;
        }
    }
}

// Steps 1 to 6 for the first n rows.
pub fn reduce_first(g: &mut Table, w: Work, n: usize) -> Work
    requires n_bound { n ≤ 4 }
    requires reducible { Reducible n w.passes g.old w.vectors w.u w.v }
    ensures { (p : Reducible n w.passes g.old w.vectors w.u w.v) → Outcome p.kind n w.passes p.rows g.new result }
{
    if n < 2 {
        return w;
    }
    turns(g, w, n)
}
