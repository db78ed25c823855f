// An input as an array of vectors, and its refusals 1 to 7: comparisons first, so that no number of the input makes arithmetic overflow.
#![tactic(auto)]

ghost use Rattle.std.specs.Prelude.{◌≡◌, ◌≢◌, [], ℕ, ◌*◌, ◌<◌, ◌≤◌, pos, length, take, get_or, ◌≤ℤ◌, IfOk};
ghost use Rattle.row_operations.specs.Front.{front};
ghost use Rattle.lattices.specs.Vector.{N};
ghost use Rattle.lattices.specs.Volume.{is_dependent};
ghost use Rattle.lattices.specs.Refusal.{most_vectors, most_coordinates, vectors_of, too_long, one_to, first_of, vector_checks, target_checks};
ghost use Rattle.integers.specs.Every.{any};
ghost use Rattle.lattices.specs.Answer.{padded, table};
ghost use Rattle.refusals.specs.Number.{refusal_in};
ghost use Rattle.input_checks.specs.Any.{beyond};
ghost use Rattle.input_checks.specs.Shape.{Shaped};

use minors::{leading_minor, other_minor};
use refusals::Refusal;
use row_operations::{Basis, Vector, WIDTH, dot};

pub mod minors;

// How many vectors and coordinates an input may have.
pub const MOST_VECTORS: usize = 4;

pub const MOST_COORDINATES: usize = WIDTH;

// The limits of a coordinate's size and of a squared length.
const MOST_SIZE: i64 = 20000;

pub const MOST_SQUARE: i64 = 400000000;

// The first places of a row become these numbers.
fn begin_with(row: &mut Vector, numbers: &[i64])
    requires { length numbers.now ≤ most_coordinates }
    ensures { row.new ≡ front (length numbers.now) numbers.now row.old }
{
    row[..numbers.len()].copy_from_slice(numbers);
}

// The numbers as a vector of the array: zeros follow.
pub fn vector(numbers: &[i64]) -> Vector
    requires { length numbers.now ≤ most_coordinates }
    ensures { result ≡ padded most_coordinates numbers.now }
{
    let mut v = [0; WIDTH];
    begin_with(&mut v, numbers);
    v
}

// d vectors of m coordinates each as an array; zeros elsewhere.
pub fn basis(numbers: &[i64], d: usize, m: usize) -> Basis
    requires d_le_most_vectors { d ≤ most_vectors }
    requires m_le_most_coordinates { m ≤ most_coordinates }
    requires numbers_len { length numbers.now ≡ d * m }
    ensures { result ≡ table most_vectors most_coordinates (vectors_of d m numbers.now) }
{
    let mut b = [[0; WIDTH]; 4];
    for i in 0..d {
        begin_with(&mut b[i], &numbers[i * m..i * m + m]);
    }
    b
}

// Whether a coordinate is beyond the limit of either sign.
pub fn beyond(x: i64) -> bool
    ensures { result ≡ beyond x }
{
    x < -MOST_SIZE || MOST_SIZE < x
}

// Whether some coordinate is beyond the limit.
fn any_beyond(numbers: &[i64]) -> bool
    ensures { result ≡ any beyond numbers.now }
{
    for x in numbers {
        if beyond(*x) {
            return true;
        }
    }
    false
}

// Whether a target is too long. The limit of each coordinate comes first, so that the square cannot overflow.
fn long(v: &Vector) -> bool
    ensures { result ≡ too_long v.now }
{
    any_beyond(v) || MOST_SQUARE < dot(v, v)
}

// Whether the first d vectors, within the length limit, are dependent: no minor is other than zero. Mostly the first one tried is.
pub fn dependent(b: &Basis, d: usize) -> bool
    requires d_le_most_vectors { d ≤ most_vectors }
    requires by_index { (i : ℕ) → i < d → N (get_or b.now i []) ≤ℤ pos 400000000 }
    ensures { result ≡ is_dependent most_coordinates (take d b.now) }
{
    leading_minor(b, d) == 0 && other_minor(b, d).is_none()
}

// Whether a count is from 1 to the most that is allowed.
pub fn one_to(most: usize, n: usize) -> bool
    ensures { result ≡ one_to most n }
{
    1 <= n && n <= most
}

// The first refusal that applies to d vectors of m coordinates before their squared lengths are formed: 1, 2, 3, and 4 for a coordinate beyond
// the limit. The counts come first: then d * m cannot overflow.
pub fn shaped(numbers: &[i64], d: usize, m: usize) -> Result<(), Refusal>
    ensures value { refusal_in result ≢ 0 → refusal_in result ≡ first_of vector_checks (record { numbers = numbers.entry.now; d = d; m = m; target = [] }) }
    ensures shaped { refusal_in result ≡ 0 → Shaped (record { numbers = numbers.entry.now; d = d; m = m; target = [] }) }
{
    if !one_to(MOST_VECTORS, d) {
        return Err(Refusal::VectorCount);
    }
    if !one_to(MOST_COORDINATES, m) {
        return Err(Refusal::CoordinateCount);
    }
    if numbers.len() != d * m {
        return Err(Refusal::NumberCount);
    }
    if any_beyond(numbers) {
        return Err(Refusal::TooLong);
    }
    Ok(())
}

// A target of vectors of m coordinates, zeros behind it, or the first refusal that applies to it.
pub fn target(numbers: &[i64], m: usize) -> Result<Vector, Refusal>
    requires { m ≤ most_coordinates }
    ensures value { refusal_in result ≡ first_of target_checks (record { numbers = []; d = 0; m = m; target = numbers.now }) }
    ensures target { IfOk result (λ t. t ≡ padded most_coordinates numbers.now) }
{
    if numbers.len() != m {
        return Err(Refusal::TargetCount);
    }
    let t = vector(numbers);
    if long(&t) {
        return Err(Refusal::TargetTooLong);
    }
    Ok(t)
}
