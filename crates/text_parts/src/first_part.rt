// The counts d and m that a request begins with.
ghost use Rattle.std.specs.Prelude.{◌≡◌, ◌≤◌, length};
ghost use Rattle.text_parts.specs.Counts.{is_count, count_of, are_counts, counts_stop, counts_at};

use super::{Counts, Kind, read_part};

pub fn is_count(n: i64) -> bool
    ensures { result ≡ is_count n }
{
    n >= 0
}

// n as a count, 0 where it is none.
pub fn count(n: i64) -> usize
    ensures { result ≡ count_of n }
{
    n.max(0) as usize
}

// Whether n numbers, of which d and m are the first, are two counts.
fn are_counts(n: usize, d: i64, m: i64) -> bool
    ensures { result ≡ are_counts n d m }
{
    n >= 2 && is_count(d) && is_count(m)
}

// How the first part stops: at its semicolon only behind two counts, and a third number is a mistake.
fn counts_stop(stop: Kind, fit: bool) -> Kind
    ensures { result ≡ counts_stop stop fit }
{
    match stop {
        Kind::Semicolon if !fit => Kind::NoCount,
        Kind::TooMany => Kind::NoCount,
        _ => stop,
    }
}

// The first part of a request: two counts and a semicolon.
pub fn read_counts(s: &[u8]) -> Counts
    ensures value { result ≡ counts_at s.now }
    ensures length_in_bounds { result.length ≤ length s.now }
{
    let mut numbers = [0; 2];
    let p = read_part(s, &mut numbers);
    let [d, m] = numbers;
    Counts {
        d: count(d),
        m: count(m),
        length: p.length,
        stop: counts_stop(p.stop, are_counts(p.count, d, m)),
    }
}
