// Numbers as text.
ghost use Rattle.std.specs.Prelude.{◌≡◌, ◌+◌, ◌≤◌, min, length, if◌then◌else◌};
ghost use Rattle.text_parts.specs.Numbers.{digits, value, largest, signed_within, signed_at, number_at};

use super::{Kind, Token};

// How many digits the bytes begin with.
fn digits(s: &[u8]) -> usize
    ensures value { result ≡ digits s.now }
    ensures upper_bound { result ≤ length s.now }
{
    s.iter()
        .position(|b| !b.is_ascii_digit())
        .unwrap_or(s.len())
}

// The number that digits write, or the largest u64 where that is less.
fn size(s: &[u8]) -> u64
    ensures { result ≡ min largest (value 0 s.now) }
{
    let mut n = 0u64;
    for b in s {
        n = n
            .saturating_mul(10)
            .saturating_add(u64::from(b.saturating_sub(b'0')));
    }
    n
}

// n, or -n behind a minus, where an i64 has it.
fn with_sign(n: u64, minus: bool) -> Option<i64>
    ensures { result ≡ signed_within (if minus then 1 else 0) n }
{
    let z = i128::from(n);
    i64::try_from(if minus { -z } else { z }).ok()
}

// The number whose digits the bytes begin with, a minus before them or not. The length counts the minus.
fn signed(s: &[u8], minus: bool) -> Token
    ensures value { result ≡ signed_at (if minus then 1 else 0) s.now }
    ensures length_bound { result.length ≤ length s.now + (if minus then 1 else 0) }
{
    let n = digits(s);
    if n == 0 {
        return Token {
            kind: Kind::Unexpected,
            length: 0,
        };
    }
    let kind = match with_sign(size(&s[..n]), minus) {
        Some(z) => Kind::Number(z),
        None => Kind::TooLarge,
    };
    Token {
        kind,
        length: n + usize::from(minus),
    }
}

// The number that the bytes begin with, a minus before its digits or not.
pub fn number(s: &[u8]) -> Token
    ensures value { result ≡ number_at s.now }
    ensures length_in_bounds { result.length ≤ length s.now }
{
    match s {
        [b'-', rest @ ..] => signed(rest, true),
        _ => signed(s, false),
    }
}
