// Arithmetic on rows of numbers: vectors, and the rows of tables. Unused places are zero.
#![tactic(auto)]

ghost use Rattle.std.specs.Prelude.{◌≡◌, [], map, ℕ, ◌+◌, ◌≤◌, take, ◌*ℤ◌, nat_abs};
ghost use Rattle.integers.specs.Lists.{nth};
ghost use Rattle.integers.specs.Size.{load};
ghost use Rattle.lattices.specs.Vector.{dot, comb, ◌⊖◌, ◌⊙◌};
ghost use Rattle.lattices.specs.Greedy.{units};
ghost use Rattle.lattices.specs.Answer.{table};
ghost use Rattle.row_operations.specs.Dot.{weight};
ghost use Rattle.row_operations.specs.Minus.{room};

// How many coordinates a vector has.
pub const WIDTH: usize = 8;

pub type Vector = [i64; WIDTH];

pub type Basis = [Vector; 4];

// A number for each two vectors.
pub type Table = [[i64; 4]; 4];

// A row as the structs of answers hold it: of vectors, and of the tables U and V.
#[derive(Clone, Copy)]
pub struct Row<const N: usize> {
    pub at: [i64; N],
}

pub type VectorRow = Row<WIDTH>;

pub type TableRow = Row<4>;

// The inner product. Here and below two lists are read at one index.
pub fn dot<const N: usize>(a: &[i64; N], b: &[i64; N]) -> i64
    requires { weight a.now b.now ≤ room }
    ensures { result ≡ dot a.now b.now }
{
    let mut sum = 0;
    for i in 0..N {
        sum += a[i] * b[i];
    }
    sum
}

// a loses q times b. Most multiples are by 0.
pub fn lose<const N: usize>(a: &mut [i64; N], q: i64, b: &[i64; N])
    requires { (i : ℕ) → nat_abs (nth a.old i) + nat_abs (q *ℤ nth b.now i) ≤ room }
    ensures { a.new ≡ a.old ⊖ q ⊙ b.now }
{
    if q == 0 {
        return;
    }
    for i in 0..N {
        a[i] -= q * b[i];
    }
}

// r loses the combination x of the first d rows of t.
pub fn lose_combination<const N: usize>(r: &mut [i64; N], t: &[[i64; N]; 4], d: usize, x: &[i64; 4])
    requires d_bound { d ≤ 4 }
    requires by_index { (i : ℕ) → nat_abs (nth r.old i) + load (take d x.now) (take d t.now) i ≤ room }
    ensures { r.new ≡ r.old ⊖ comb (take d x.now) (take d t.now) }
{
    for j in 0..d {
        lose(r, x[j], &t[j]);
    }
}

// The first d unit rows, then zeros.
pub fn unit_table(d: usize) -> Table
    requires { d ≤ 4 }
    ensures { result ≡ table 4 4 (units d) }
{
    let mut t = [[0; 4]; 4];
    for i in 0..d {
        t[i][i] = 1;
    }
    t
}

// The rows of a table, each in a struct.
pub fn packed<const N: usize>(t: &[[i64; N]; 4]) -> [Row<N>; 4]
    ensures { map (λ row. row.at) result ≡ t.now }
{
    [
        Row { at: t[0] },
        Row { at: t[1] },
        Row { at: t[2] },
        Row { at: t[3] },
    ]
}

// The rows out of their structs.
pub fn unpacked<const N: usize>(rows: &[Row<N>; 4]) -> [[i64; N]; 4]
    ensures { result ≡ map (λ row. row.at) rows.now }
{
    [rows[0].at, rows[1].at, rows[2].at, rows[3].at]
}
