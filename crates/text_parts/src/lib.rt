// Requests as text: numbers with blanks between them, in parts with semicolons between them.
#![tactic(auto)]

ghost use Rattle.std.specs.Prelude.{◌≡◌, ◌≤◌, length};
ghost use Rattle.text_parts.specs.Parts.{taken_at, part_of, filled};

use tokens::read_token;

pub mod first_part;
pub mod numbers;
pub mod tokens;

// What stands at a place of the text.
#[derive(Clone, Copy, PartialEq, Eq)]
pub enum Kind {
    Number(i64),
    Semicolon,
    End,
    Unexpected,
    TooLarge,
    TooMany,
    NoCount,
}

// The first token of some bytes: what it is, and how many bytes it takes with the blanks before it.
#[derive(Clone, Copy)]
pub struct Token {
    pub kind: Kind,
    pub length: usize,
}

// The numbers of a part: how many, how many bytes they take with the token after them, and what that token is.
#[derive(Clone, Copy)]
pub struct Part {
    pub count: usize,
    pub length: usize,
    pub stop: Kind,
}

// The counts d and m that a request begins with, and how the part that holds them stops.
#[derive(Clone, Copy)]
pub struct Counts {
    pub d: usize,
    pub m: usize,
    pub length: usize,
    pub stop: Kind,
}

// The numbers up to a semicolon, the end or a mistake, put into out. One that out has no room for is a mistake.
pub fn read_part(s: &[u8], out: &mut [i64]) -> Part
    ensures value { result ≡ part_of (taken_at (length out.old) s.now) }
    ensures out_after { out.new ≡ filled (taken_at (length out.old) s.now) out.old }
    ensures count_in_bounds { result.count ≤ length out.new }
    ensures length_in_bounds { result.length ≤ length s.now }
{
    let mut n = 0;
    let mut at = 0;
    loop {
        let t = read_token(&s[at..]);
        let Kind::Number(z) = t.kind else {
            return Part {
                count: n,
                length: at + t.length,
                stop: t.kind,
            };
        };
        if n == out.len() {
            return Part {
                count: n,
                length: at,
                stop: Kind::TooMany,
            };
        }
        out[n] = z;
        n += 1;
        at += t.length;
    }
}
