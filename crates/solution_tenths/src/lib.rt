// The solution of the linear system G·y = c in whole tenths. y is the solution in floats; x holds the whole coefficients found, r the inner
// products of the vectors with what is left of the target. What y is away from x is taken in parts, 8192 to a whole, and tested: no more than a
// small part may be left. Floats that were wrong are set right by steps.
#![tactic(auto)]

ghost use Rattle.std.specs.Prelude.{◌≡◌, List, [], ℕ, ◌≤◌, pos, ◌-ℤ◌, ◌*ℤ◌, get_or};
ghost use Rattle.integers.specs.Size.{Within};
ghost use Rattle.lattices.specs.Vector.{Vec, nth, dot};
ghost use Rattle.successive_minima.specs.Laws.Digits.{Bounded};
ghost use Rattle.solutions.specs.Solution.{PaddedTenths};
ghost use Rattle.solutions.specs.Laws.Settled.{Between};
ghost use Rattle.solution_tenths.specs.Rest.{Rest, Rests};
ghost use Rattle.solution_tenths.specs.Tests.{Level, Steep, Toward};
ghost use Rattle.solution_tenths.specs.Taken.{Taken, Known, Settled};

use row_operations::{Table, dot, lose};

// What unknown i is away from its coefficient, in parts; 0 behind d.
fn part(i: usize, d: usize, y: f64, x: i64) -> i64
    requires { Within 30000000 x }
    ensures within { Within 1048576 result }
    ensures value { d ≤ i → result ≡ pos 0 }
{
    if i < d {
        return linear_systems::rounded_wide(8192.0 * (y - linear_systems::real(x)));
    }
    0
}

fn parts(d: usize, y: &[f64; 4], x: &[i64; 4]) -> [i64; 4]
    requires { Bounded 30000000 x.now }
    ensures bounded { Bounded 1048576 result }
    ensures by_index { (i : ℕ) → d ≤ i → nth result i ≡ pos 0 }
{
    [
        part(0, d, y[0], x[0]),
        part(1, d, y[1], x[1]),
        part(2, d, y[2], x[2]),
        part(3, d, y[3], x[3]),
    ]
}

// The inner product of vector i with what the parts z leave: row is its row of G, r its inner product with what is left of the target. Behind d
// all that is 0.
fn product(i: usize, d: usize, row: &[i64; 4], r: i64, z: &[i64; 4]) -> i64
    requires bounded { Bounded 400000000 row.now }
    requires within { Within 400000000 r }
    requires bounded_2 { Bounded 1048576 z.now }
    requires r_value { d ≤ i → r ≡ pos 0 }
    requires j_value { d ≤ i → (j : ℕ) → nth row.now j ≡ pos 0 }
    ensures { result ≡ pos 8192 *ℤ r -ℤ dot z.now row.now }
{
    if d <= i {
        return 0;
    }
    8192 * r - dot(z, row)
}

fn products(g: &Table, d: usize, r: &[i64; 4], z: &[i64; 4]) -> [i64; 4]
    requires by_index { (i : ℕ) → Bounded 400000000 (get_or g.now i []) }
    requires bounded { Bounded 400000000 r.now }
    requires bounded_2 { Bounded 1048576 z.now }
    requires by_index_2 { (i : ℕ) → d ≤ i → nth r.now i ≡ pos 0 }
    requires by_index_3 { (i : ℕ) → d ≤ i → (j : ℕ) → nth (get_or g.now i []) j ≡ pos 0 }
    ensures { (i : ℕ) → nth result i ≡ pos 8192 *ℤ nth r.now i -ℤ dot z.now (get_or g.now i []) }
{
    [
        product(0, d, &g[0], r[0], z),
        product(1, d, &g[1], r[1], z),
        product(2, d, &g[2], r[2], z),
        product(3, d, &g[3], r[3], z),
    ]
}

// Is little left along a vector? n is its squared length, p its inner product with what is left.
fn level(n: i64, p: i64) -> bool
    requires within { Within 400000000 n }
    requires within_2 { Within 4000000000000000 p }
    ensures { Level n p result }
{
    let most = 3 * n;
    let twice = 2 * p;
    -most <= twice && twice <= most
}

// The first vector along which more is left.
fn steep(g: &Table, h: &[i64; 4]) -> Option<usize>
    requires by_index { (i : ℕ) → Bounded 400000000 (get_or g.now i []) }
    requires bounded { Bounded 4000000000000000 h.now }
    ensures { Steep g.now h.now result }
{
    for i in 0..4 {
        if !level(g[i][i], h[i]) {
            return Some(i);
        }
    }
    None
}

// 1 or −1, by the side on which p is.
fn toward(p: i64) -> i64
    ensures { Toward p result }
{
    if 0 < p {
        return 1;
    }
    -1
}

// The parts z, changed by steps until little is left along each vector; h holds the inner products with what z leaves. Mostly no step is needed.
fn settled(g: &Table, h: [i64; 4], z: [i64; 4]) -> [i64; 4]
    requires { Known g.now h z }
    ensures { (bs : List Vec) (u : Vec) → Taken bs u g.now h z → Settled bs u result }
{
    let mut w = z;
    let mut l = h;
    while let Some(p) = steep(g, &l) {
        let q = toward(l[p]);
        lose(&mut l, q, &g[p]);
        w[p] += q;
    }
    w
}

// The whole number of tenths nearest to z parts. It is moved up by 100000000000, so that a number without a sign is divided.
fn nearest(z: i64) -> i64
    requires { Within 65000000000000 z }
    ensures between { Between (pos 4096) (pos 10 *ℤ z -ℤ pos 8192 *ℤ result) }
    ensures within { Within 300000000000 result }
{
    let n = (10 * z + 819200000004096) as u64;
    (n / 8192) as i64 - 100000000000
}

// Number i in tenths, 0 behind d.
fn tenth(i: usize, d: usize, x: i64, z: i64) -> i64
    requires within { Within 30000000 x }
    requires within_2 { Within 65000000000000 z }
    requires x_value { d ≤ i → x ≡ pos 0 }
    requires z_value { d ≤ i → z ≡ pos 0 }
    ensures { Between (pos 4096) (pos 10 *ℤ z -ℤ pos 8192 *ℤ (result -ℤ pos 10 *ℤ x)) }
{
    if d <= i {
        return 0;
    }
    10 * x + nearest(z)
}

// The solution in tenths, zeros behind d.
pub fn tenths(g: &Table, d: usize, y: &[f64; 4], x: &[i64; 4], r: &[i64; 4]) -> [i64; 4]
    requires d_bound { d ≤ 4 }
    requires rests { Rests d g.now x.now r.now }
    ensures { (bs : List Vec) (t : Vec) → Rest d bs t g.now x.now r.now → PaddedTenths bs t result }
{
    let z = parts(d, y, x);
    let w = settled(g, products(g, d, r, &z), z);
    [
        tenth(0, d, x[0], w[0]),
        tenth(1, d, x[1], w[1]),
        tenth(2, d, x[2], w[2]),
        tenth(3, d, x[3], w[3]),
    ]
}
