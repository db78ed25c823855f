// Input read with its failures seen: a read that fails is said on standard error, and the caller leaves. What is read, no contract can say.
#![tactic(auto)]

ghost use Rattle.std.specs.Prelude.{◌≡◌, ◌+◌, ◌%◌, ◌≤◌, ◌<◌, length, IfSome};
ghost use Rattle.text_output.specs.Counts.{IsPrefixLen};
ghost use Rattle.cli_input.specs.Kept.{most_kept, kept_length};

use catalogue_records::Catalogue;
use cli_output::{Say, fail};
use std::io::Read;

// Room for the largest catalogue, and so much more that any length modulo 4 can be kept over the limit.
pub const MOST_KEPT: usize = Catalogue::MOST_BYTES + 7;

// The least multiple of 4 over the limit.
const OVER: usize = Catalogue::MOST_BYTES + 4;

// Reads once, behind the bytes that have come: how many bytes have come then, none where the read failed. The input is at its end where no
// more come.
pub fn read_more(
    rt: &impl Say,
    input: &mut impl Read,
    bytes: &mut [u8],
    have: usize,
) -> Option<usize>
    requires { have ≤ length bytes.old }
    ensures bounds { IfSome result (λ end. (have ≤ end) × (end ≤ length bytes.old)) }
{
    match input.read(&mut bytes[have..]) {
        Ok(n) => Some(have + n),
        Err(error) => {
            fail(rt, b"raghymtos: cannot read", error);
            None
        }
    }
}

// Reads until the bytes are full or the input ends: how many bytes have come, none where a read failed.
pub fn read_all(rt: &impl Say, input: &mut impl Read, bytes: &mut [u8]) -> Option<usize>
    ensures { IfSome result (λ end. IsPrefixLen end bytes.new) }
{
    let mut have = 0;
    while have < bytes.len() {
        let end = read_more(rt, input, bytes, have)?;
        if end == have {
            break;
        }
        have = end;
    }
    Some(have)
}

// How many bytes are left of the input, modulo 4. Nothing says that a stream ends and a proved loop must, so the turns are counted up to a
// number that no run reaches.
fn read_rest(rt: &impl Say, input: &mut impl Read) -> Option<usize>
    ensures { IfSome result (λ n. n < 4) }
{
    let mut bytes = [0; 4096];
    let mut count = 0;
    for _ in 0..u64::MAX {
        let n = read_more(rt, input, &mut bytes, 0)?;
        if n == 0 {
            break;
        }
        count = (count + n) % 4;
    }
    Some(count)
}

// How many bytes stand for an input of which so many came into the buffer, and behind them so many more.
fn kept_length(got: usize, more: usize) -> usize
    requires { (got ≤ most_kept) × (more < 4) }
    ensures { result ≡ kept_length got more }
{
    if got < MOST_KEPT {
        return got;
    }
    OVER + (got + more) % 4
}

// Reads a catalogue. Of so many bytes that the buffer is full, which are too many, it keeps so many that the refusal is that of the whole input
// (`kept-refused` of specs/Kept.antt).
pub fn read_catalogue(
    rt: &impl Say,
    input: &mut impl Read,
    bytes: &mut [u8; MOST_KEPT],
) -> Option<usize>
    ensures { IfSome result (λ end. IsPrefixLen end bytes.new) }
{
    let n = read_all(rt, input, bytes)?;
    if n < MOST_KEPT {
        return Some(n);
    }
    Some(kept_length(n, read_rest(rt, input)?))
}
