// The vector nearest to a target, on the Gram matrix of reduced vectors, as section 5 of source 000 has it (Theorem 11 and its proof): the inner
// products with the target (`gram_matrix`: `products`), the linear system of equation (1) (`linear_systems`: `solution`), its solution rounded and the
// exhaustive search around it (`nearest_search`: `around`), and what is left of the target.
#![tactic(auto)]

ghost use Rattle.std.specs.Prelude.{◌≡◌, ◌≤◌, take};
ghost use Rattle.lattices.specs.Vector.{N, comb, ◌⊖◌};
ghost use Rattle.lattices.specs.Nearest.{nearest};
ghost use Rattle.lattices.specs.Answer.{padded};
ghost use Rattle.nearest_steps.specs.Formed.{GramOf};
ghost use Rattle.nearest_search.specs.Near.{Near};
ghost use Rattle.solutions.specs.Solution.{PaddedTenths};

use row_operations::{Basis, Table, Vector};

// The coefficients of the vector found, and the solution of the linear system in tenths.
#[derive(Clone, Copy)]
pub struct Found {
    pub coefficients: [i64; 4],
    pub tenths: [i64; 4],
}

// t loses the vector nearest to it in the lattice of the first d vectors of b, whose Gram matrix is g. n is the squared length of t.
pub fn lose_nearest(g: &Table, b: &Basis, d: usize, n: i64, t: &mut Vector) -> Found
    requires d_bound { d ≤ 4 }
    requires n_value { n ≡ N t.old }
    requires near { Near d b.now t.old }
    requires gram_of { GramOf (take d b.now) g.now }
    ensures value { result.coefficients ≡ padded 4 (nearest (take d b.now) t.old) }
    ensures t_after { t.new ≡ t.old ⊖ comb (nearest (take d b.now) t.old) (take d b.now) }
    ensures padded_tenths { PaddedTenths (take d b.now) t.old result.tenths }
{
    let mut r = gram_matrix::products(b, d, t);
    let y = linear_systems::solution(g, d, &r);
    let mut x = [0; 4];
    nearest_search::around(g, d, n, y, &mut r, &mut x);
    row_operations::lose_combination(t, b, d, &x);
    Found {
        coefficients: x,
        tenths: solution_tenths::tenths(g, d, &y, &x, &r),
    }
}
