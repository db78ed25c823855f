// Text put into lent bytes: each function puts its own from a place on, asks for room, and gives the place after it.
#![tactic(auto)]

ghost use Rattle.std.specs.Prelude.{◌≡◌, [], ◌∷◌, ◌+◌, ◌-◌, ◌≤◌, ◌<◌, nat_abs, length};
ghost use Rattle.std.proofs.lemmas.List.Edits.{sets};
ghost use Rattle.integers.specs.Decimal.{decimal, signed};
ghost use Rattle.text_output.specs.Puts.{Puts};

// A byte.
pub fn put_byte(out: &mut [u8], at: usize, b: u8) -> usize
    requires { at < length out.old }
    ensures { Puts (b ∷ []) out.old at out.new result }
{
    out[at] = b;
    at + 1
}

// A run of bytes.
pub fn put_bytes(out: &mut [u8], at: usize, text: &[u8]) -> usize
    requires { at + length text.now ≤ length out.old }
    ensures { Puts text.now out.old at out.new result }
{
    let end = at + text.len();
    out[at..end].copy_from_slice(text);
    end
}

// How many digits a number has.
fn digits(n: u64) -> usize
    ensures { result ≡ length (decimal n) }
{
    let mut count = 1;
    let mut rest = n;
    while rest >= 10 {
        rest = rest / 10;
        count += 1;
    }
    count
}

// The digits of a number up to a place, from the last on.
fn put_digits(out: &mut [u8], end: usize, n: u64)
    requires { (length (decimal n) ≤ end) × (end ≤ length out.old) }
    ensures { out.new ≡ sets out.old (end - length (decimal n)) (decimal n) }
{
    let mut at = end - 1;
    let mut rest = n;
    while rest >= 10 {
        out[at] = 48 + (rest % 10) as u8;
        at -= 1;
        rest = rest / 10;
    }
    out[at] = 48 + rest as u8;
}

// A number in decimal.
pub fn put_decimal(out: &mut [u8], at: usize, n: u64) -> usize
    requires { at + length (decimal n) ≤ length out.old }
    ensures { Puts (decimal n) out.old at out.new result }
{
    let end = at + digits(n);
    put_digits(out, end, n);
    end
}

// A signed number in decimal, a minus before it where it is negative.
pub fn put_signed(out: &mut [u8], at: usize, z: i64) -> usize
    requires { at + length (signed z) ≤ length out.old }
    ensures { Puts (signed z) out.old at out.new result }
{
    let first = if z < 0 { put_byte(out, at, b'-') } else { at };
    put_decimal(out, first, z.unsigned_abs())
}
