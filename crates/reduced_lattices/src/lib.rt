// A lattice as a value, made once of numbers that are known to be a basis: the catalogue has tested its entries when it reads them. And the squared
// distance of a vector to it.
#![tactic(auto)]

ghost use Rattle.std.specs.Prelude.{◌≡◌, [], pos, ◌≤ℤ◌};
ghost use Rattle.lattices.specs.Vector.{N};
ghost use Rattle.lattices.specs.Refusal.{first_of, vector_checks};
ghost use Rattle.successive_minima.specs.Member.{squared_to};
ghost use Rattle.lattice_membership.specs.Known.{Known, KnownChoice, left_in, vectors_in};
ghost use Rattle.reduced_lattices.specs.Left.{left_of};

use gram_matrix::Work;
use lattice_membership::Lattice;
use row_operations::{Vector, dot};

// The lattice of numbers that no refusal applies to: reduced, once, and made ready for membership.
pub fn lattice(numbers: &[i64], d: usize, m: usize) -> Lattice
    requires { first_of vector_checks (record { numbers = numbers.now; d = d; m = m; target = [] }) ≡ 0 }
    ensures known { Known result }
    ensures chosen { KnownChoice result }
    ensures result_value { left_in result ≡ left_of (record { numbers = numbers.entry.now; d = d; m = m; target = [] }) }
{
    let vectors = input_checks::basis(numbers, d, m);
    let mut g = gram_matrix::formed(&vectors, d);
    let e = row_operations::unit_table(d);
    let w = greedy_steps::reduce_first(
        &mut g,
        Work {
            vectors,
            u: e,
            v: e,
            passes: 0,
        },
        d,
    );
    lattice_membership::lattice_of(w.vectors, d, m, gram_matrix::diagonal(&g), w.passes)
}

// The squared distance from t to the lattice, by the search for the nearest vector on the Gram matrix of its vectors.
pub fn squared_to(l: &Lattice, t: &Vector) -> i64
    requires known { Known l.now }
    requires t_bound { N t.now ≤ℤ pos 400000000 }
    ensures { result ≡ squared_to (vectors_in l.now) t.now }
{
    let g = gram_matrix::formed(&l.vectors, l.d);
    let mut rest = *t;
    nearest_vectors::lose_nearest(&g, &l.vectors, l.d, dot(t, t), &mut rest);
    dot(&rest, &rest)
}
