// The moves between the forms of a catalogue: what each says and leaves of a lent output, and whether the way there and back restores the bytes.
#![tactic(auto)]

use cli_output::Say;
use refusals::Refused;

// Writes a blank and n.
fn field(rt: &(impl Print + Say), n: u64) {
    let _ = rt.write_all(b" ");
    cli_output::number(rt, n);
}

// Writes a blank and a byte as a number.
fn byte(rt: &(impl Print + Say), b: u8) {
    field(rt, b as u64);
}

// Writes bytes as numbers.
fn show(rt: &(impl Print + Say), bytes: &[u8]) {
    for b in bytes {
        byte(rt, *b);
    }
    cli_output::newline(rt);
}

// Writes the refusal and its place, 0 where nothing is refused, and how much came, and ends the line.
fn outcome(rt: &(impl Print + Say), r: Result<usize, Refused>) {
    let (number, place, n) = match r {
        Ok(n) => (0, 0, n),
        Err(r) => (r.refusal.number(), r.place, 0),
    };
    field(rt, number);
    field(rt, place as u64);
    field(rt, n as u64);
    cli_output::newline(rt);
}

// Writes which move it was, its refusal and place, and how many bytes it wrote.
fn said(rt: &(impl Print + Say), name: &[u8], w: Result<usize, Refused>) {
    let _ = rt.write_all(name);
    outcome(rt, w);
}

// Writes a name, what the move of these words to the new form says, and the output afterwards.
fn to_new(rt: &(impl Print + Say), name: &[u8], words: &[u32], room: &mut [u8]) {
    let mut bytes = [0; 96];
    let n = sample_catalogues::store(words, &mut bytes);
    let _ = rt.write_all(name);
    cli_output::newline(rt);
    let w = catalogue::new_form(&bytes[..n], room);
    said(rt, b"new form", w);
    show(rt, room);
}

// The same with the move to the old form.
fn to_old(rt: &(impl Print + Say), name: &[u8], words: &[u32], room: &mut [u8]) {
    let mut bytes = [0; 96];
    let n = sample_catalogues::store(words, &mut bytes);
    let _ = rt.write_all(name);
    cli_output::newline(rt);
    let w = catalogue::old_form(&bytes[..n], room);
    said(rt, b"old form", w);
    show(rt, room);
}

// Old to new: the rest of the output is kept, it may be just long enough, and 16 leaves it.
fn there(rt: &(impl Print + Say)) {
    to_new(
        rt,
        b"one entry",
        &[0x10000111, 0x20004E22, 0x40000001],
        &mut [170u8; 20],
    );
    to_new(
        rt,
        b"one entry, just room",
        &[0x10000111, 0x20004E22, 0x40000001],
        &mut [170u8; 16],
    );
    to_new(
        rt,
        b"one entry, a byte too few",
        &[0x10000111, 0x20004E22, 0x40000001],
        &mut [170u8; 15],
    );
    to_new(rt, b"no entries", &[0x40000000], &mut [170u8; 6]);
    to_new(rt, b"no entries, just room", &[0x40000000], &mut [170u8; 4]);
    to_new(
        rt,
        b"no entries, a byte too few",
        &[0x40000000],
        &mut [170u8; 3],
    );
    to_new(
        rt,
        b"a catalogue in full",
        &[
            0x10000722, 0x20004E21, 0x20004E20, 0x20004E24, 0x20004E21, 0x10000922, 0x20004E22,
            0x20004E20, 0x20004E20, 0x20004E23, 0x3000000C, 0x10000C22, 0x20004E20, 0x20004E21,
            0x20004E21, 0x20004E20, 0x30000009, 0x40000003,
        ],
        &mut [170u8; 88],
    );
    to_new(
        rt,
        b"a catalogue in full, a byte too few",
        &[
            0x10000722, 0x20004E21, 0x20004E20, 0x20004E24, 0x20004E21, 0x10000922, 0x20004E22,
            0x20004E20, 0x20004E20, 0x20004E23, 0x3000000C, 0x10000C22, 0x20004E20, 0x20004E21,
            0x20004E21, 0x20004E20, 0x30000009, 0x40000003,
        ],
        &mut [170u8; 83],
    );
    to_new(
        rt,
        b"drafts",
        &[
            0x10000111, 0x20004E22, 0x50000001, 0x10000211, 0x20004E1E, 0x50000001, 0x30000001,
            0x40000002,
        ],
        &mut [170u8; 40],
    );
    to_new(
        rt,
        b"the greatest old number",
        &[0x1FFFFF11, 0x20004E22, 0x40000001],
        &mut [170u8; 16],
    );
}

// New to old.
fn back(rt: &(impl Print + Say)) {
    to_old(
        rt,
        b"one entry",
        &[0x60000001, 0x70000011, 0x20004E22, 0x40000001],
        &mut [170u8; 16],
    );
    to_old(
        rt,
        b"one entry, just room",
        &[0x60000001, 0x70000011, 0x20004E22, 0x40000001],
        &mut [170u8; 12],
    );
    to_old(
        rt,
        b"one entry, a byte too few",
        &[0x60000001, 0x70000011, 0x20004E22, 0x40000001],
        &mut [170u8; 11],
    );
    to_old(rt, b"no entries", &[0x40000000], &mut [170u8; 6]);
    to_old(rt, b"no entries, just room", &[0x40000000], &mut [170u8; 4]);
    to_old(
        rt,
        b"no entries, a byte too few",
        &[0x40000000],
        &mut [170u8; 3],
    );
    to_old(
        rt,
        b"a catalogue in full",
        &[
            0x60000007, 0x70000022, 0x20004E21, 0x20004E20, 0x20004E24, 0x20004E21, 0x60000009,
            0x70000022, 0x20004E22, 0x20004E20, 0x20004E20, 0x20004E23, 0x3000000C, 0x6000000C,
            0x70000022, 0x20004E20, 0x20004E21, 0x20004E21, 0x20004E20, 0x30000009, 0x40000003,
        ],
        &mut [170u8; 76],
    );
    to_old(
        rt,
        b"a catalogue in full, a byte too few",
        &[
            0x60000007, 0x70000022, 0x20004E21, 0x20004E20, 0x20004E24, 0x20004E21, 0x60000009,
            0x70000022, 0x20004E22, 0x20004E20, 0x20004E20, 0x20004E23, 0x3000000C, 0x6000000C,
            0x70000022, 0x20004E20, 0x20004E21, 0x20004E21, 0x20004E20, 0x30000009, 0x40000003,
        ],
        &mut [170u8; 71],
    );
    to_old(
        rt,
        b"drafts",
        &[
            0x60000001, 0x70000011, 0x20004E22, 0x50000001, 0x60000002, 0x70000011, 0x20004E1E,
            0x50000001, 0x30000001, 0x40000002,
        ],
        &mut [170u8; 32],
    );
    to_old(
        rt,
        b"the greatest old number",
        &[0x600FFFFF, 0x70000011, 0x20004E22, 0x40000001],
        &mut [170u8; 12],
    );
}

// The wrong form: 10 at place 0, before any other word is judged and before 16.
fn wrong_form(rt: &(impl Print + Say)) {
    to_new(
        rt,
        b"a new head to new",
        &[0x60000001, 0x70000011, 0x20004E22, 0x40000001],
        &mut [170u8; 20],
    );
    to_new(
        rt,
        b"a new head to new, no room",
        &[0x60000001, 0x70000011, 0x20004E22, 0x40000001],
        &mut [170u8; 0],
    );
    to_new(rt, b"number 0 to new", &[0x60000000], &mut [170u8; 4]);
    to_new(rt, b"a number alone to new", &[0x60000001], &mut [170u8; 4]);
    to_new(
        rt,
        b"a new head with bit 8 to new",
        &[0x60000001, 0x70000111],
        &mut [170u8; 4],
    );
    to_new(
        rt,
        b"a new zero vector to new",
        &[0x60000001, 0x70000011, 0x20004E20, 0x40000001],
        &mut [170u8; 4],
    );
    to_new(
        rt,
        b"a new head and a wrong count to new",
        &[0x60000001, 0x70000011, 0x20004E22, 0x40000007],
        &mut [170u8; 4],
    );
    to_old(
        rt,
        b"an old head to old",
        &[0x10000111, 0x20004E22, 0x40000001],
        &mut [170u8; 20],
    );
    to_old(
        rt,
        b"an old head to old, no room",
        &[0x10000111, 0x20004E22, 0x40000001],
        &mut [170u8; 0],
    );
    to_old(
        rt,
        b"an old head with number 0 to old",
        &[0x10000011],
        &mut [170u8; 4],
    );
    to_old(
        rt,
        b"an old head with d = 0 to old",
        &[0x10000101],
        &mut [170u8; 4],
    );
    to_old(
        rt,
        b"an old head with m = 9 to old",
        &[0x10000119],
        &mut [170u8; 4],
    );
    to_old(
        rt,
        b"an old zero vector to old",
        &[0x10000111, 0x20004E20, 0x40000001],
        &mut [170u8; 4],
    );
    to_old(
        rt,
        b"an old head and a wrong count to old",
        &[0x10000111, 0x20004E22, 0x40000007],
        &mut [170u8; 4],
    );
}

// The refusals of reading, old to new.
fn refusals_there(rt: &(impl Print + Say)) {
    to_new(
        rt,
        b"a size first",
        &[0x70000011, 0x20004E22, 0x40000001],
        &mut [170u8; 4],
    );
    to_new(rt, b"a coordinate first", &[0x20004E22], &mut [170u8; 4]);
    to_new(rt, b"no words", &[], &mut [170u8; 4]);
    to_new(
        rt,
        b"an old head, then a new one",
        &[
            0x10000111, 0x20004E22, 0x60000002, 0x70000011, 0x20004E22, 0x40000002,
        ],
        &mut [170u8; 4],
    );
    to_new(rt, b"no coordinate", &[0x10000111], &mut [170u8; 4]);
    to_new(rt, b"d = 0", &[0x10000101], &mut [170u8; 4]);
    to_new(rt, b"m = 0", &[0x10000110], &mut [170u8; 4]);
    to_new(rt, b"number 0", &[0x10000011], &mut [170u8; 4]);
    to_new(rt, b"20001", &[0x10000111, 0x20009C41], &mut [170u8; 4]);
    to_new(
        rt,
        b"load 2",
        &[0x10000111, 0x20004E22, 0x50000002, 0x40000001],
        &mut [170u8; 4],
    );
    to_new(
        rt,
        b"a wrong count",
        &[0x10000111, 0x20004E22, 0x40000000],
        &mut [170u8; 4],
    );
    to_new(
        rt,
        b"a wrong count of no entries",
        &[0x40000001],
        &mut [170u8; 4],
    );
    to_new(
        rt,
        b"words follow",
        &[0x40000000, 0x60000001],
        &mut [170u8; 4],
    );
    to_new(
        rt,
        b"a zero vector",
        &[
            0x10000111, 0x20004E22, 0x30000009, 0x10000211, 0x20004E20, 0x40000002,
        ],
        &mut [170u8; 4],
    );
    to_new(
        rt,
        b"a lost see word",
        &[0x10000111, 0x20004E22, 0x30000009, 0x40000001],
        &mut [170u8; 4],
    );
    to_new(
        rt,
        b"a lost see word, no room",
        &[0x10000111, 0x20004E22, 0x30000009, 0x40000001],
        &mut [170u8; 0],
    );
}

// The refusals of reading, new to old.
fn refusals_back(rt: &(impl Print + Say)) {
    to_old(
        rt,
        b"a size first",
        &[0x70000011, 0x20004E22, 0x40000001],
        &mut [170u8; 4],
    );
    to_old(rt, b"a coordinate first", &[0x20004E22], &mut [170u8; 4]);
    to_old(rt, b"no words", &[], &mut [170u8; 4]);
    to_old(
        rt,
        b"a new head, then an old one",
        &[
            0x60000001, 0x70000011, 0x20004E22, 0x10000211, 0x20004E22, 0x40000002,
        ],
        &mut [170u8; 4],
    );
    to_old(rt, b"no size", &[0x60000001], &mut [170u8; 4]);
    to_old(
        rt,
        b"the end for a size",
        &[0x60000001, 0x40000001],
        &mut [170u8; 4],
    );
    to_old(rt, b"number 0", &[0x60000000], &mut [170u8; 4]);
    to_old(
        rt,
        b"bit 8, d = 0",
        &[0x60000001, 0x70000101],
        &mut [170u8; 4],
    );
    to_old(rt, b"d = 0", &[0x60000001, 0x70000001], &mut [170u8; 4]);
    to_old(rt, b"m = 9", &[0x60000001, 0x70000019], &mut [170u8; 4]);
    to_old(
        rt,
        b"20001",
        &[0x60000001, 0x70000011, 0x20009C41],
        &mut [170u8; 4],
    );
    to_old(
        rt,
        b"load 2",
        &[0x60000001, 0x70000011, 0x20004E22, 0x50000002, 0x40000001],
        &mut [170u8; 4],
    );
    to_old(
        rt,
        b"a wrong count",
        &[0x60000001, 0x70000011, 0x20004E22, 0x40000000],
        &mut [170u8; 4],
    );
    to_old(
        rt,
        b"a wrong count of no entries",
        &[0x40000001],
        &mut [170u8; 4],
    );
    to_old(
        rt,
        b"words follow",
        &[0x40000000, 0x10000111],
        &mut [170u8; 4],
    );
    to_old(
        rt,
        b"a zero vector",
        &[
            0x60000001, 0x70000011, 0x20004E22, 0x30000009, 0x60000002, 0x70000011, 0x20004E20,
            0x40000002,
        ],
        &mut [170u8; 4],
    );
    to_old(
        rt,
        b"a lost see word",
        &[0x60000001, 0x70000011, 0x20004E22, 0x30000009, 0x40000001],
        &mut [170u8; 4],
    );
}

// On the way back 19 at the first head with a number over 1,048,575: after every refusal of reading, before 16.
fn long_numbers(rt: &(impl Print + Say)) {
    to_old(
        rt,
        b"number 1048576",
        &[0x60100000, 0x70000011, 0x20004E22, 0x40000001],
        &mut [170u8; 20],
    );
    to_old(
        rt,
        b"number 268435455",
        &[0x6FFFFFFF, 0x70000011, 0x20004E22, 0x40000001],
        &mut [170u8; 20],
    );
    to_old(
        rt,
        b"number 1048576, no room",
        &[0x60100000, 0x70000011, 0x20004E22, 0x40000001],
        &mut [170u8; 0],
    );
    to_old(
        rt,
        b"number 1048576 in a second entry",
        &[
            0x600FFFFF, 0x70000011, 0x20004E22, 0x60100000, 0x70000011, 0x20004E22, 0x40000002,
        ],
        &mut [170u8; 40],
    );
    to_old(
        rt,
        b"number 1048576 in a second entry, no room",
        &[
            0x600FFFFF, 0x70000011, 0x20004E22, 0x60100000, 0x70000011, 0x20004E22, 0x40000002,
        ],
        &mut [170u8; 0],
    );
    to_old(
        rt,
        b"numbers 268435455 and 1048576 after a draft",
        &[
            0x60000001, 0x70000011, 0x20004E22, 0x50000001, 0x6FFFFFFF, 0x70000011, 0x20004E22,
            0x60100000, 0x70000011, 0x20004E22, 0x40000003,
        ],
        &mut [170u8; 40],
    );
    to_old(
        rt,
        b"number 1048577, then 1",
        &[
            0x60100001, 0x70000011, 0x20004E22, 0x60000001, 0x70000011, 0x20004E22, 0x40000002,
        ],
        &mut [170u8; 40],
    );
    to_old(
        rt,
        b"a see word to 1048576",
        &[
            0x60000001, 0x70000011, 0x20004E22, 0x30100000, 0x60100000, 0x70000011, 0x20004E22,
            0x40000002,
        ],
        &mut [170u8; 40],
    );
    to_old(
        rt,
        b"number 1048576 of a zero vector",
        &[0x60100000, 0x70000011, 0x20004E20, 0x40000001],
        &mut [170u8; 20],
    );
    to_old(
        rt,
        b"number 1048576, then a zero vector",
        &[
            0x60100000, 0x70000011, 0x20004E22, 0x60000002, 0x70000011, 0x20004E20, 0x40000002,
        ],
        &mut [170u8; 20],
    );
    to_old(
        rt,
        b"number 1048576 with a lost see word",
        &[0x60100000, 0x70000011, 0x20004E22, 0x30000009, 0x40000001],
        &mut [170u8; 20],
    );
    to_old(
        rt,
        b"number 1048576, then a wrong count",
        &[0x60100000, 0x70000011, 0x20004E22, 0x40000002],
        &mut [170u8; 20],
    );
    to_old(
        rt,
        b"number 1048576, then bit 8",
        &[0x60100000, 0x70000011, 0x20004E22, 0x60000002, 0x70000111],
        &mut [170u8; 20],
    );
}

// Writes a name, and whether the first n bytes of an output are these.
fn compared(rt: &(impl Print + Say), name: &[u8], bytes: &[u8], out: &[u8], n: usize) {
    let _ = rt.write_all(name);
    let word = match out.get(..n) {
        Some(first) if first == bytes => b": the same\n".as_slice(),
        _ => b": others\n",
    };
    let _ = rt.write_all(word);
}

// Moves a catalogue of the old form, and that of the new form with the same words; whether each gives the other's bytes.
fn both_ways(rt: &(impl Print + Say), name: &[u8], old: &[u8], new: &[u8]) {
    let _ = rt.write_all(name);
    cli_output::newline(rt);
    let mut there = [170u8; catalogue_records::Catalogue::MOST_BYTES];
    let w = catalogue::new_form(old, &mut there);
    said(rt, b"new form", w);
    compared(rt, b"there", new, &there, w.unwrap_or(0));
    let mut back = [170u8; catalogue_records::Catalogue::MOST_BYTES];
    let v = catalogue::old_form(new, &mut back);
    said(rt, b"old form", v);
    compared(rt, b"back", old, &back, v.unwrap_or(0));
}

// The words of a catalogue of the old form as bytes of both forms.
fn round(rt: &(impl Print + Say), name: &[u8], words: &[u32]) {
    let mut old = [0u8; catalogue_records::Catalogue::MOST_BYTES];
    let n = sample_catalogues::store(words, &mut old);
    let mut renewed = [0u32; 9217];
    let k = sample_catalogues::in_new_form(words, &mut renewed);
    let mut new = [0u8; catalogue_records::Catalogue::MOST_BYTES];
    let l = sample_catalogues::store(&renewed[..k], &mut new);
    both_ways(rt, name, &old[..n], &new[..l]);
}

// Entries alike, as many as are counted.
fn many(rt: &(impl Print + Say), name: &[u8], count: u32, shape: u32, rest: &[u32]) {
    let mut words = [0u32; 8961];
    let n = sample_catalogues::alike(&mut words, count, shape, rest);
    round(rt, name, &words[..n]);
}

// As many entries as there can be, of the least and of the greatest length, and one more.
fn counts(rt: &(impl Print + Say)) {
    many(rt, b"no entries, both ways", 0, 0x11, &[0x20004E22]);
    many(rt, b"one entry, both ways", 1, 0x11, &[0x20004E22]);
    many(rt, b"255 entries", 255, 0x11, &[0x20004E22]);
    many(rt, b"256 entries", 256, 0x11, &[0x20004E22]);
    many(rt, b"257 entries", 257, 0x11, &[0x20004E22]);
    many(
        rt,
        b"256 entries of the greatest length",
        256,
        0x48,
        &[
            0x20004E20, 0x20004E21, 0x20004E20, 0x20004E20, 0x20004E20, 0x20004E20, 0x20004E20,
            0x20004E20, 0x20004E20, 0x20004E20, 0x20004E20, 0x20004E21, 0x20004E20, 0x20004E20,
            0x20004E20, 0x20004E20, 0x20004E20, 0x20004E20, 0x20004E20, 0x20004E20, 0x20004E20,
            0x20004E21, 0x20004E20, 0x20004E20, 0x20004E20, 0x20004E20, 0x20004E20, 0x20004E20,
            0x20004E20, 0x20004E20, 0x20004E20, 0x20004E21, 0x50000001, 0x30000001,
        ],
    );
}

// Bytes with this word first.
fn long(rt: &(impl Print + Say), name: &[u8], w: u32, bytes: &mut [u8]) {
    sample_catalogues::store(&[w], bytes);
    let _ = rt.write_all(name);
    cli_output::newline(rt);
    said(rt, b"new form", catalogue::new_form(bytes, &mut [170u8; 4]));
    said(rt, b"old form", catalogue::old_form(bytes, &mut [170u8; 4]));
}

// 8 and 9 by the form that the first word shows, before the wrong form gives 10.
fn lengths(rt: &(impl Print + Say)) {
    long(
        rt,
        b"5 bytes, the first word a number",
        0x60000001,
        &mut [0; 5],
    );
    long(
        rt,
        b"5 bytes, the first word an old head",
        0x10000111,
        &mut [0; 5],
    );
    long(
        rt,
        b"36868 bytes, the first word a number",
        0x60000001,
        &mut [0; 36868],
    );
    long(
        rt,
        b"36872 bytes, the first word a number",
        0x60000001,
        &mut [0; 36872],
    );
    long(
        rt,
        b"36873 bytes, the first word a number",
        0x60000001,
        &mut [0; 36873],
    );
    long(
        rt,
        b"35844 bytes, the first word an old head",
        0x10000111,
        &mut [0; 35844],
    );
    long(
        rt,
        b"35848 bytes, the first word an old head",
        0x10000111,
        &mut [0; 35848],
    );
    long(
        rt,
        b"35848 bytes, the first word a size",
        0x70000011,
        &mut [0; 35848],
    );
}

fn main(rt: HostRuntime) {
    there(&rt);
    back(&rt);
    wrong_form(&rt);
    refusals_there(&rt);
    refusals_back(&rt);
    long_numbers(&rt);
    counts(&rt);
    lengths(&rt);
}
