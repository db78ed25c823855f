// Bytes as hexadecimal digits, two to a byte, the higher first.
ghost use Rattle.std.specs.Prelude.{◌≡◌, ◌+◌, ◌*◌, ◌≤◌, ◌<◌, length};
ghost use Rattle.std.proofs.lemmas.List.Edits.{sets};
ghost use Rattle.integers.specs.Every.{every};
ghost use Rattle.cli_merges.specs.Digits.{is_digit, digit, byte_of, bytes_in};

// What a digit counts; 0 for what is none.
fn digit(b: u8) -> u8
    ensures value { result ≡ digit b }
    ensures upper_bound { result < 16 }
{
    match b {
        b'0'..=b'9' => b - 48,
        b'A'..=b'F' => b - 55,
        b'a'..=b'f' => b - 87,
        _ => 0,
    }
}

// The byte of two digits.
fn byte_of(high: u8, low: u8) -> u8
    ensures { result ≡ byte_of high low }
{
    digit(high) * 16 + digit(low)
}

// Whether all bytes are digits.
pub(crate) fn are_digits(s: &[u8]) -> bool
    ensures { result ≡ every is_digit s.now }
{
    for b in s {
        if !b.is_ascii_hexdigit() {
            return false;
        }
    }
    true
}

// The bytes that digits write, and how many they are.
pub(crate) fn put_bytes(s: &[u8], out: &mut [u8]) -> usize
    requires { length s.now ≤ 2 * length out.old }
    ensures out_after { out.new ≡ sets out.old 0 (bytes_in s.now) }
    ensures value { result ≡ length (bytes_in s.now) }
{
    let n = s.len() / 2;
    for i in 0..n {
        out[i] = byte_of(s[2 * i], s[2 * i + 1]);
    }
    n
}
