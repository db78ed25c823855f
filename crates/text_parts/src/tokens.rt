// The tokens of a request: numbers, semicolons and the end, with blanks before them.
ghost use Rattle.std.specs.Prelude.{◌≡◌, ◌≤◌, length, drop};
ghost use Rattle.text_parts.specs.Numbers.{leading};
ghost use Rattle.text_parts.specs.Tokens.{is_blank, ends, token_at};

use super::numbers::number;
use super::{Kind, Token};

// A carriage return counts as a blank, so that both kinds of line end do.
pub fn is_blank(b: u8) -> bool
    ensures { result ≡ is_blank b }
{
    match b {
        b'\t' | b'\r' | b' ' => true,
        _ => false,
    }
}

// How many blanks the bytes begin with.
pub fn blanks(s: &[u8]) -> usize
    ensures value { result ≡ leading is_blank s.now }
    ensures upper_bound { result ≤ length s.now }
{
    s.iter().position(|&b| !is_blank(b)).unwrap_or(s.len())
}

// May a number end before these bytes?
fn ends(s: &[u8]) -> bool
    ensures { result ≡ ends s.now }
{
    match s {
        [] => true,
        [b, ..] => *b == b';' || is_blank(*b),
    }
}

// The first token of the bytes.
pub fn read_token(s: &[u8]) -> Token
    ensures value { result ≡ token_at s.now }
    ensures length_in_bounds { result.length ≤ length s.now }
{
    let n = blanks(s);
    if n == s.len() {
        return Token {
            kind: Kind::End,
            length: n,
        };
    }
    if s[n] == b';' {
        return Token {
            kind: Kind::Semicolon,
            length: n + 1,
        };
    }
    let t = number(&s[n..]);
    let length = n + t.length;
    if !ends(&s[length..]) {
        return Token {
            kind: Kind::Unexpected,
            length: n,
        };
    }
    Token { length, ..t }
}
