// The linear system G·y = c of section 5 (source 000, equation (1)), solved in floats: G is the Gram matrix of d vectors, c holds the inner products of the
// target with them. Nothing is said of how exact the solution is, and nothing depends on it: integers made from it are only bounded.
#![tactic(auto)]

ghost use Rattle.std.specs.Prelude.{[], ℕ, ◌<◌, get_or};
ghost use Rattle.integers.specs.Size.{Within};
ghost use Rattle.lattices.specs.Vector.{nth};
ghost use Rattle.successive_minima.specs.Laws.Digits.{Bounded};

pub fn real(n: i64) -> f64
    requires { Within 2000000000 n }
{
    (n as i32) as f64
}

// The last digits of t, if it is so large that its last digit is a whole one; else half of what they may be, for a NaN too.
fn last_digits(t: f64, limit: u64) -> u64
    requires { 0 < limit }
    ensures { result < limit }
{
    if t >= 4503599627370496.0 {
        return f64::to_bits(t) % limit;
    }
    limit / 2
}

// The integer nearest to x, if it has at most 16 bits with its sign.
pub fn rounded(x: f64) -> i64
    ensures { Within 32768 result }
{
    last_digits(x + 4503599627403264.0, 65536) as i64 - 32768
}

// The integer nearest to x, if it has at most 21 bits with its sign.
pub fn rounded_wide(x: f64) -> i64
    ensures { Within 1048576 result }
{
    last_digits(x + 4503599628419072.0, 2097152) as i64 - 1048576
}

// x less the first n products of a and b.
fn less(x: f64, a: [f64; 4], b: [f64; 4], n: usize) -> f64 {
    let mut y = x;
    for i in 0..4 {
        if i < n {
            y = y - a[i] * b[i];
        }
    }
    y
}

// Row i of the system with the unknowns before i eliminated: the multiples of the rows before that are taken off it, then the coefficient of unknown
// i, and last the right side, divided by that coefficient. t has the rows before, y their right sides.
fn row(g: [i64; 4], c: i64, t: [[f64; 4]; 4], y: [f64; 4], i: usize) -> [f64; 5]
    requires i_bound { i < 4 }
    requires bounded { Bounded 400000000 g }
    requires within { Within 2000000000 c }
{
    let mut a = [0.0; 4];
    let mut e = [0.0; 4];
    for j in 0..4 {
        if j < i {
            let b = t[j];
            a[j] = less(real(g[j]), a, b, j);
            e[j] = a[j] / b[j];
        }
    }
    e[i] = less(real(g[i]), a, e, i);
    [e[0], e[1], e[2], e[3], less(real(c), a, y, i) / e[i]]
}

// Unknown i, if there is one, is known: it is taken out of the equations before its own.
fn inserted(y: [f64; 4], a: [f64; 4], i: usize, d: usize) -> [f64; 4]
    requires { i < 4 }
{
    if d <= i {
        return y;
    }
    let mut z = y;
    for j in 0..4 {
        if j < i {
            z[j] = y[j] - y[i] * a[j];
        }
    }
    z
}

// The solution of G·y = c for the first d rows and columns of G; zeros behind.
pub fn solution(g: &[[i64; 4]; 4], d: usize, c: &[i64; 4]) -> [f64; 4]
    requires by_index { (i j : ℕ) → Within 400000000 (nth (get_or g.now i []) j) }
    requires bounded { Bounded 2000000000 c.now }
{
    let mut t = [[0.0; 4]; 4];
    let mut y = [0.0; 4];
    for i in 0..4 {
        if i < d {
            let e = row(g[i], c[i], t, y, i);
            t[i] = [e[0], e[1], e[2], e[3]];
            y[i] = e[4];
        }
    }
    let z = inserted(y, t[3], 3, d);
    let w = inserted(z, t[2], 2, d);
    inserted(w, t[1], 1, d)
}
