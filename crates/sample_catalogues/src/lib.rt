// Catalogues made: words as bytes, many entries alike, and many that differ, in the old form and in the new.
#![tactic(auto)]

ghost use Rattle.std.specs.Prelude.{◌≤◌, length};
ghost use Rattle.text_output.specs.Counts.{IsPrefixLen};

// The bytes of a word from n on, lowest byte first, if there is room; the index after them.
fn put(bytes: &mut [u8], n: usize, w: u32) -> usize
    requires { n ≤ length bytes.old }
    ensures { result ≤ length bytes.old }
{
    if bytes.len() - n < 4 {
        return n;
    }
    bytes[n..n + 4].copy_from_slice(&w.to_le_bytes());
    n + 4
}

// The bytes of the words, as far as there is room; how many there are.
pub fn store(words: &[u32], bytes: &mut [u8]) -> usize
    ensures { IsPrefixLen result bytes.new }
{
    let mut n = 0;
    for w in words {
        n = put(bytes, n, *w);
    }
    n
}

// One word more, if there is room; the index after it.
fn push(words: &mut [u32], at: usize, w: u32) -> usize
    requires { at ≤ length words.old }
    ensures { result ≤ length words.old }
{
    if at < words.len() {
        words[at] = w;
        return at + 1;
    }
    at
}

// An entry: its number, d and m as in a head, and the words after its head; the index after it.
fn entry(words: &mut [u32], at: usize, number: u32, shape: u32, rest: &[u32]) -> usize
    requires { at ≤ length words.old }
    ensures { result ≤ length words.old }
{
    let mut n = push(words, at, 268435456 + number % 1048576 * 256 + shape % 256);
    for w in rest {
        n = push(words, n, *w);
    }
    n
}

// Entries alike, numbered from 1, and the end word; how many words they take.
pub fn alike(words: &mut [u32], count: u32, shape: u32, rest: &[u32]) -> usize
    ensures { IsPrefixLen result words.new }
{
    let mut n = 0;
    for k in 0..count {
        n = entry(words, n, k % 1048575 + 1, shape, rest);
    }
    push(words, n, 1073741824 + count % 1048576)
}

// Entries of one coordinate, 1 to count, numbered by it, each with a see word to the entry of half its number, and the end word; how many words
// they take. All are of different lattices, and the first sees itself.
pub fn multiples(words: &mut [u32], count: u32) -> usize
    ensures { IsPrefixLen result words.new }
{
    let mut n = 0;
    for k in 0..count {
        let number = k % 20000 + 1;
        let half = (number + 1) / 2;
        n = entry(
            words,
            n,
            number,
            0x11,
            &[0x20004E20 + number, 0x30000000 + half],
        );
    }
    push(words, n, 1073741824 + count % 1048576)
}

// A word as it stands in the new form: of a head its number, then its d and m; the index after it.
fn push_new(words: &mut [u32], at: usize, w: u32) -> usize
    requires { at ≤ length words.old }
    ensures { result ≤ length words.old }
{
    if w / 268435456 == 1 {
        let n = push(words, at, 0x60000000 + w % 268435456 / 256);
        return push(words, n, 0x70000000 + w % 256);
    }
    push(words, at, w)
}

// The words with their heads in the new form, as far as there is room; how many there are.
pub fn in_new_form(old: &[u32], words: &mut [u32]) -> usize
    ensures { IsPrefixLen result words.new }
{
    let mut n = 0;
    for w in old {
        n = push_new(words, n, *w);
    }
    n
}
