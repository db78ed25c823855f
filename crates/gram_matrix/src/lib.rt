// The greedy steps on the Gram matrix of the vectors: squared lengths are on its diagonal. Vectors, U and V go through the same steps beside it.
#![tactic(auto)]

ghost use Rattle.std.specs.Prelude.{◌≡◌, List, [], ◌++◌, map, ℕ, suc, ◌+◌, ◌-◌, ◌≤◌, ◌<◌, pos, nat_abs, ◌*ℤ◌, get_or, take, drop};
ghost use Rattle.lattices.specs.Vector.{nth};
ghost use Rattle.row_operations.specs.Minus.{room};
ghost use Rattle.gram_matrix.specs.Columns.{gained_at, gained_columns};
ghost use Rattle.gram_matrix.specs.Lose.{Loses, Gains};
ghost use Rattle.gram_matrix.specs.Gram.{losing};
ghost use Rattle.gram_matrix.specs.Cross.{entered, crossed};
ghost use Rattle.integers.specs.Size.{Within};
ghost use Rattle.gram_matrix.specs.Formed.{products, formed};
ghost use Rattle.lattices.specs.Greedy.{Row, order};
ghost use Rattle.gram_matrix.specs.Order.{exchanged, insert_at};
ghost use Rattle.gram_matrix.specs.Tied.{Kind, shorter_in};
ghost use Rattle.gram_matrix.specs.Work.{Belongs};

pub use row_operations::Table;
use row_operations::{Basis, Vector, dot};
pub use work::{Work, diagonal};

pub mod work;

// The inner products of the first d vectors with v, zeros behind: with a target the right side of equation (1) in section 5.
pub fn products(b: &Basis, d: usize, v: &Vector) -> [i64; 4]
    requires d_bound { d ≤ 4 }
    requires by_index { (i j : ℕ) → i < d → Within 100000 (nth (get_or b.now i []) j) }
    requires by_index_2 { (j : ℕ) → Within 100000 (nth v.now j) }
    ensures { result ≡ products (take d b.now) v.now }
{
    let mut r = [0; 4];
    for j in 0..d {
        r[j] = dot(&b[j], v);
    }
    r
}

// Entry k of each row becomes that of r at its place.
fn enter(g: &mut Table, k: usize, r: &[i64; 4])
    requires { k ≤ 3 }
    ensures { g.new ≡ entered k r.now g.old }
{
    for i in 0..4 {
        g[i][k] = r[i];
    }
}

// The Gram matrix of the first d vectors, zeros elsewhere: with each vector its row and its column are added.
pub fn formed(b: &Basis, d: usize) -> Table
    requires d_bound { d ≤ 4 }
    requires by_index { (i j : ℕ) → i < d → Within 100000 (nth (get_or b.now i []) j) }
    ensures { result ≡ formed (take d b.now) }
{
    let mut g = [[0; 4]; 4];
    for i in 0..d {
        let r = products(b, i + 1, &b[i]);
        g[i] = r;
        enter(&mut g, i, &r);
    }
    g
}

// Is vector k shorter than the one before it?
pub fn shorter(g: &Table, k: usize) -> bool
    requires { (0 < k) × (k ≤ 3) }
    ensures { result ≡ shorter_in g.now k }
{
    g[k][k] < g[k - 1][k - 1]
}

// Columns j and j + 1 change places.
fn exchange_columns(t: &mut Table, j: usize)
    requires { suc j < 4 }
    ensures { t.new ≡ map (exchanged j) t.old }
{
    for row in t.iter_mut() {
        row.swap(j, j + 1);
    }
}

// Row j of all tables changes places with the next one: in the Gram matrix rows and columns, in V columns.
fn exchange(g: &mut Table, w: &mut Work, j: usize)
    requires { suc j < 4 }
    ensures belongs { (K : Kind) (rows : List Row) → Belongs K rows g.old w.old → Belongs K (exchanged j rows) g.new w.new }
    ensures passes { w.new.passes ≡ w.old.passes }
{
    exchange_columns(g, j);
    g.swap(j, j + 1);
    w.vectors.swap(j, j + 1);
    w.u.swap(j, j + 1);
    exchange_columns(&mut w.v, j);
}

// Row i goes past those behind it, up to n, that are shorter.
fn insert(g: &mut Table, w: &mut Work, i: usize, n: usize)
    requires { (i < n) × (n ≤ 4) }
    ensures belongs { (K : Kind) (rows : List Row) → Belongs K rows g.old w.old → Belongs K (insert_at i (n - suc i) rows) g.new w.new }
    ensures passes { w.new.passes ≡ w.old.passes }
{
    for j in i..n - 1 {
        if !shorter(g, j + 1) {
            return;
        }
        exchange(g, w, j);
    }
}

// The first n rows in order of length, shortest first and equal lengths in their order; the rows from n on stay.
pub fn order(g: &mut Table, w: &mut Work, n: usize)
    requires { n ≤ 4 }
    ensures belongs { (K : Kind) (rows : List Row) → Belongs K rows g.old w.old → Belongs K (order (take n rows) ++ drop n rows) g.new w.new }
    ensures passes { w.new.passes ≡ w.old.passes }
{
    for i in (1..n).rev() {
        insert(g, w, i - 1, n);
    }
}

// Row k of a table loses the combination x of the rows before it.
fn lose_rows<const N: usize>(t: &mut [[i64; N]; 4], k: usize, x: &[i64; 4])
    requires k_bound { k ≤ 3 }
    requires loses { Loses k x.now t.old }
    ensures { t.new ≡ losing (take k x.now) t.old k }
{
    let mut r = t[k];
    row_operations::lose_combination(&mut r, t, k, x);
    t[k] = r;
}

// Entry j gains q times entry k.
fn gain_entry(r: &mut [i64; 4], j: usize, q: i64, k: usize)
    requires j_bound { (j < 4) × (k < 4) }
    requires k_bound { nat_abs (nth r.old j) + nat_abs (q *ℤ nth r.old k) ≤ room }
    ensures { r.new ≡ gained_at j q k r.old }
{
    r[j] += q * r[k];
}

// Column j gains q times column k.
fn gain_column(t: &mut Table, j: usize, q: i64, k: usize)
    requires j_bound { (j < 4) × (k < 4) }
    requires by_index { (i : ℕ) → nat_abs (nth (get_or t.old i []) j) + nat_abs (q *ℤ nth (get_or t.old i []) k) ≤ room }
    ensures { t.new ≡ map (gained_at j q k) t.old }
{
    for row in t.iter_mut() {
        gain_entry(row, j, q, k);
    }
}

// The columns before column k gain each its number of x times column k.
fn gain_columns(t: &mut Table, k: usize, x: &[i64; 4])
    requires k_bound { k ≤ 3 }
    requires gains { Gains k x.now t.old }
    ensures { t.new ≡ gained_columns (take k x.now) k t.old }
{
    for j in 0..k {
        gain_column(t, j, x[j], k);
    }
}

// Row k of the vectors and of U loses the combination x of the rows before it; their columns of V gain.
pub fn lose_combination(w: &mut Work, k: usize, x: &[i64; 4])
    requires k_bound { k ≤ 3 }
    requires loses { Loses k x.now w.old.vectors }
    requires loses_2 { Loses k x.now w.old.u }
    requires gains { Gains k x.now w.old.v }
    ensures vectors_after { w.new.vectors ≡ losing (take k x.now) w.old.vectors k }
    ensures u_after { w.new.u ≡ losing (take k x.now) w.old.u k }
    ensures v_after { w.new.v ≡ gained_columns (take k x.now) k w.old.v }
    ensures passes { w.new.passes ≡ w.old.passes }
{
    lose_rows(&mut w.vectors, k, x);
    lose_rows(&mut w.u, k, x);
    gain_columns(&mut w.v, k, x);
}

// Row and column k of the Gram matrix become r, what is left of row k when the rows before it are taken away x times; its entry k, the
// squared length, loses the same once more.
pub fn cross(g: &mut Table, k: usize, r: &[i64; 4], x: &[i64; 4])
    requires k_bound { k ≤ 3 }
    requires by_index { (i : ℕ) → Within 2000000000000000000 (nth x.now i *ℤ nth r.now i) }
    requires within { Within 1000000000000000000 (nth r.now k) }
    requires by_index_2 { (i : ℕ) → k ≤ i → nth x.now i ≡ pos 0 }
    ensures { g.new ≡ crossed (take k x.now) k r.now g.old }
{
    enter(g, k, r);
    g[k] = *r;
    // the coefficients from k on are 0
    g[k][k] = r[k] - dot(x, r);
}
