// The vectors with their tables.
ghost use Rattle.std.specs.Prelude.{◌≡◌};
ghost use Rattle.gram_matrix.specs.Work.{diagonal_of};

use row_operations::{Basis, Table};

// The work on a list of vectors: they, their tables and the passes made so far. Their Gram matrix is lent beside it.
#[derive(Clone, Copy)]
pub struct Work {
    pub vectors: Basis,
    pub u: Table,
    pub v: Table,
    pub passes: u64,
}

// The numbers on the diagonal: of a Gram matrix the squared lengths.
pub fn diagonal(g: &Table) -> [i64; 4]
    ensures { result ≡ diagonal_of g.now }
{
    [g[0][0], g[1][1], g[2][2], g[3][3]]
}
