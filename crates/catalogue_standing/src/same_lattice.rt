// Whether two entries generate one lattice: by the squared lengths of their reduced vectors, in which other lattices mostly differ, then by
// membership both ways.
ghost use Rattle.std.specs.Prelude.{◌≡◌};
ghost use Rattle.lattice_membership.specs.Known.{left_in};
ghost use Rattle.catalogue_standing.specs.ReducedEntry.{same_reduced};
ghost use Rattle.catalogue_standing.specs.SameLattice.{FairLattice};

use lattice_membership::{Lattice, holds_lattice};

// Whether both are one lattice.
pub(crate) fn same(left: &Lattice, right: &Lattice) -> bool
    requires { (FairLattice left.now) × (FairLattice right.now) }
    ensures { result ≡ same_reduced (left_in left.now) (left_in right.now) }
{
    if left.m != right.m {
        return false;
    }
    if left.d != right.d {
        return false;
    }
    if left.squares != right.squares {
        return false;
    }
    holds_lattice(left, right) && holds_lattice(right, left)
}
