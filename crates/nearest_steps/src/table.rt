// The walk over the table of the lists with entries −1, 0, 1. A list and its opposite are tested by two numbers: the square of the list, what its
// vector's squared length is, and its sum, twice its vector's inner product with what is left. Both are had by additions.
ghost use Rattle.std.specs.Prelude.{◌≡◌, ◌≤◌};
ghost use Rattle.integers.specs.Size.{Within};
ghost use Rattle.successive_minima.specs.Laws.Digits.{Bounded};
ghost use Rattle.nearest_steps.specs.Meant.{Known};
ghost use Rattle.nearest_steps.specs.Pairs.{squares_of, sums_of};
ghost use Rattle.nearest_steps.specs.Places.{Walked, Placed};

use row_operations::Table;

// The lists with entries −1, 0, 1, not all 0, each before its opposite: the first 1, 4 and 13 pairs are those of 1, 2 and 3 vectors.
pub const LISTS: [[i64; 3]; 26] = [
    [1, 0, 0],
    [-1, 0, 0],
    [0, 1, 0],
    [0, -1, 0],
    [1, 1, 0],
    [-1, -1, 0],
    [1, -1, 0],
    [-1, 1, 0],
    [0, 0, 1],
    [0, 0, -1],
    [1, 0, 1],
    [-1, 0, -1],
    [1, 0, -1],
    [-1, 0, 1],
    [0, 1, 1],
    [0, -1, -1],
    [0, 1, -1],
    [0, -1, 1],
    [1, 1, 1],
    [-1, -1, -1],
    [1, 1, -1],
    [-1, -1, 1],
    [1, -1, 1],
    [-1, 1, -1],
    [1, -1, -1],
    [-1, 1, 1],
];

// a·x + b·y + c·z for the first list of each pair.
fn sums(a: i64, b: i64, c: i64) -> [i64; 13]
    requires within { Within 4000000000 a }
    requires within_2 { Within 4000000000 b }
    requires within_3 { Within 4000000000 c }
    ensures { result ≡ sums_of a b c }
{
    let s = a + b;
    let t = a - b;
    [
        a,
        b,
        s,
        t,
        c,
        a + c,
        a - c,
        b + c,
        b - c,
        s + c,
        s - c,
        t + c,
        t - c,
    ]
}

// a·x² + b·xy + c·xz + d·y² + e·yz + f·z² for the first list of each pair.
fn squares(a: i64, b: i64, c: i64, d: i64, e: i64, f: i64) -> [i64; 13]
    requires within { Within 400000000 a }
    requires within_2 { Within 800000000 b }
    requires within_3 { Within 800000000 c }
    requires within_4 { Within 400000000 d }
    requires within_5 { Within 800000000 e }
    requires within_6 { Within 400000000 f }
    ensures { result ≡ squares_of a b c d e f }
{
    let ad = a + d;
    let af = a + f;
    let df = d + f;
    let all = ad + f;
    let p = all + b;
    let q = all - b;
    let s = c + e;
    let t = c - e;
    [
        a,
        d,
        ad + b,
        ad - b,
        f,
        af + c,
        af - c,
        df + e,
        df - e,
        p + s,
        p - s,
        q + t,
        q - t,
    ]
}

// The place of the first list that improves, by the squares q and the sums l of the first n pairs.
fn walk(q: [i64; 13], l: [i64; 13], n: usize) -> Option<usize>
    requires n_bound { n ≤ 13 }
    requires bounded { Bounded 20000000000 q }
    ensures { Walked n q l result }
{
    for i in 0..n {
        let a = q[i];
        let b = l[i];
        if a < b {
            return Some(2 * i);
        }
        if b <= -a {
            return Some(2 * i + 1);
        }
    }
    None
}

// The place of the first list of the table that improves.
pub fn place(g: &Table, k: usize, r: &[i64; 4]) -> Option<usize>
    requires k_bound { k ≤ 3 }
    requires known { Known k g.now r.now }
    ensures { Placed k g.now r.now result }
{
    let l = sums(2 * r[0], 2 * r[1], 2 * r[2]);
    let [u, v, w, _] = g;
    let q = squares(u[0], 2 * u[1], 2 * u[2], v[1], 2 * v[2], w[2]);
    // a number of pairs that the compiler sees
    match k {
        3 => walk(q, l, 13),
        2 => walk(q, l, 4),
        1 => walk(q, l, 1),
        _ => None,
    }
}
