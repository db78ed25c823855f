// Heads of the new form: those that are read, each refusal at its place, and files with heads of both forms.
use super::{many_new, run, shown};
use cli_output::Say;

// Heads that are read: with numbers on both sides of the old limit and the greatest, marked, seen, and of the catalogue in full.
pub(crate) fn new_heads(rt: &(impl Print + Say)) {
    run(
        rt,
        b"a new head",
        &[0x60000001, 0x70000011, 0x20004E22, 0x40000001],
    );
    run(
        rt,
        b"a new head, number 1048575",
        &[0x600FFFFF, 0x70000011, 0x20004E22, 0x40000001],
    );
    run(
        rt,
        b"a new head, number 1048576",
        &[0x60100000, 0x70000011, 0x20004E22, 0x40000001],
    );
    run(
        rt,
        b"a new head, number 268435455, which sees itself",
        &[0x6FFFFFFF, 0x70000011, 0x20004E22, 0x3FFFFFFF, 0x40000001],
    );
    run(
        rt,
        b"new heads 1 and 1048577",
        &[
            0x60000001, 0x70000011, 0x20004E22, 0x30100001, 0x60100001, 0x70000011, 0x20004E23,
            0x40000002,
        ],
    );
    run(
        rt,
        b"a new head of a draft",
        &[
            0x60000001, 0x70000011, 0x20004E22, 0x50000001, 0x30000001, 0x40000001,
        ],
    );
    run(
        rt,
        b"a catalogue in full with new heads",
        &[
            0x60000007, 0x70000022, 0x20004E21, 0x20004E20, 0x20004E24, 0x20004E21, 0x60000009,
            0x70000022, 0x20004E22, 0x20004E20, 0x20004E20, 0x20004E23, 0x3000000C, 0x6000000C,
            0x70000022, 0x20004E20, 0x20004E21, 0x20004E21, 0x20004E20, 0x30000009, 0x40000003,
        ],
    );
}

// No size behind a number: 10 there, whatever stands in its place.
pub(crate) fn no_size(rt: &(impl Print + Say)) {
    run(rt, b"a number alone", &[0x60000001]);
    run(rt, b"a number, then kind 0", &[0x60000001, 0x00000000]);
    run(
        rt,
        b"a number, then an old head",
        &[0x60000001, 0x10000111, 0x20004E22, 0x40000001],
    );
    run(
        rt,
        b"a number, then a coordinate",
        &[0x60000001, 0x20004E22, 0x40000001],
    );
    run(
        rt,
        b"a number, then a see word",
        &[0x60000001, 0x30000001, 0x20004E22, 0x40000001],
    );
    run(rt, b"a number, then the end", &[0x60000001, 0x40000001]);
    run(
        rt,
        b"a number, then a mark",
        &[0x60000001, 0x50000001, 0x20004E22, 0x40000001],
    );
    run(
        rt,
        b"a number, then load 2",
        &[0x60000001, 0x50000002, 0x20004E22, 0x40000001],
    );
    run(
        rt,
        b"a number, then a number",
        &[0x60000001, 0x60000002, 0x70000011, 0x20004E22, 0x40000001],
    );
    run(rt, b"a number, then number 0", &[0x60000001, 0x60000000]);
    run(
        rt,
        b"a number, then kind 8",
        &[0x60000001, 0x80000011, 0x20004E22, 0x40000001],
    );
    run(
        rt,
        b"a number, then kind 15",
        &[0x60000001, 0xF0000011, 0x20004E22, 0x40000001],
    );
    run(
        rt,
        b"a second number, then nothing",
        &[0x60000001, 0x70000011, 0x20004E22, 0x60000002],
    );
    run(
        rt,
        b"a second number, then the end",
        &[0x60000001, 0x70000011, 0x20004E22, 0x60000002, 0x40000002],
    );
}

// Sizes and numbers where none can stand: 10 whatever they load, and 14 behind the end word.
pub(crate) fn other_places(rt: &(impl Print + Say)) {
    run(rt, b"a size alone", &[0x70000011]);
    run(rt, b"a size first", &[0x70000011, 0x20004E22, 0x40000001]);
    run(rt, b"a size with all bits first", &[0x7FFFFFFF]);
    run(
        rt,
        b"a second size",
        &[0x60000001, 0x70000011, 0x70000011, 0x20004E22, 0x40000001],
    );
    run(
        rt,
        b"a size for a coordinate of an old entry",
        &[0x10000111, 0x70000011, 0x20004E22, 0x40000001],
    );
    run(
        rt,
        b"a size after an old entry",
        &[0x10000111, 0x20004E22, 0x70000011, 0x20004E22, 0x40000002],
    );
    run(
        rt,
        b"a size after a new entry",
        &[
            0x60000001, 0x70000011, 0x20004E22, 0x70000011, 0x20004E22, 0x40000002,
        ],
    );
    run(
        rt,
        b"a size with all bits after a new entry",
        &[0x60000001, 0x70000011, 0x20004E22, 0x7FFFFFFF],
    );
    run(
        rt,
        b"a size after a mark",
        &[
            0x60000001, 0x70000011, 0x20004E22, 0x50000001, 0x70000011, 0x20004E22, 0x40000002,
        ],
    );
    run(
        rt,
        b"a size after a see word",
        &[
            0x60000001, 0x70000011, 0x20004E22, 0x30000001, 0x70000011, 0x20004E22, 0x40000002,
        ],
    );
    run(
        rt,
        b"a number for a coordinate",
        &[
            0x60000001, 0x70000011, 0x60000002, 0x70000011, 0x20004E22, 0x40000002,
        ],
    );
    run(
        rt,
        b"number 0 for a coordinate of an old entry",
        &[0x10000111, 0x60000000],
    );
    run(
        rt,
        b"a number after an end of no entries",
        &[0x40000000, 0x60000001],
    );
    run(
        rt,
        b"a size after an end of no entries",
        &[0x40000000, 0x70000011],
    );
    run(
        rt,
        b"a number after the end",
        &[0x60000001, 0x70000011, 0x20004E22, 0x40000001, 0x60000002],
    );
    run(
        rt,
        b"a size after the end",
        &[0x60000001, 0x70000011, 0x20004E22, 0x40000001, 0x7FFFFFFF],
    );
}

// Heads of both forms: 10 at the first that differs, before its other conditions.
pub(crate) fn both_forms(rt: &(impl Print + Say)) {
    run(
        rt,
        b"an old head, then a new one",
        &[
            0x10000111, 0x20004E22, 0x60000002, 0x70000011, 0x20004E22, 0x40000002,
        ],
    );
    run(
        rt,
        b"a new head, then an old one",
        &[
            0x60000001, 0x70000011, 0x20004E22, 0x10000211, 0x20004E22, 0x40000002,
        ],
    );
    run(
        rt,
        b"two old heads, then a new one",
        &[
            0x10000111, 0x20004E22, 0x10000211, 0x20004E22, 0x60000003, 0x70000011, 0x20004E22,
            0x10000411, 0x20004E22, 0x40000004,
        ],
    );
    run(
        rt,
        b"two new heads, then an old one",
        &[
            0x60000001, 0x70000011, 0x20004E22, 0x60000002, 0x70000011, 0x20004E22, 0x10000311,
            0x20004E22, 0x60000004, 0x70000011, 0x20004E22, 0x40000004,
        ],
    );
    run(
        rt,
        b"a draft of the old form, then a new head",
        &[
            0x10000111, 0x20004E22, 0x50000001, 0x60000002, 0x70000011, 0x20004E22, 0x40000002,
        ],
    );
    run(
        rt,
        b"a see word of the new form, then an old head",
        &[
            0x60000001, 0x70000011, 0x20004E22, 0x30000001, 0x10000211, 0x20004E22, 0x40000002,
        ],
    );
    run(
        rt,
        b"an old head, then number 0",
        &[0x10000111, 0x20004E22, 0x60000000],
    );
    run(
        rt,
        b"an old head, then its number",
        &[
            0x10000111, 0x20004E22, 0x60000001, 0x70000011, 0x20004E22, 0x40000002,
        ],
    );
    run(
        rt,
        b"a new head, then an old one with d = 0",
        &[0x60000001, 0x70000011, 0x20004E22, 0x10000201, 0x40000002],
    );
    run(
        rt,
        b"a new head, then an old one with m = 9 and its number",
        &[0x60000001, 0x70000011, 0x20004E22, 0x10000119, 0x40000002],
    );
}

// 11 at the number, before its size is looked at.
pub(crate) fn numbers(rt: &(impl Print + Say)) {
    run(rt, b"number 0 alone", &[0x60000000]);
    run(
        rt,
        b"number 0, then a size",
        &[0x60000000, 0x70000011, 0x20004E22, 0x40000001],
    );
    run(rt, b"number 0, then d = 0", &[0x60000000, 0x70000001]);
    run(rt, b"number 0, then bit 8", &[0x60000000, 0x70000111]);
    run(rt, b"number 0, then the end", &[0x60000000, 0x40000001]);
    run(
        rt,
        b"a number used, then nothing",
        &[0x60000001, 0x70000011, 0x20004E22, 0x60000001],
    );
    run(
        rt,
        b"a number used, then a size",
        &[
            0x60000001, 0x70000011, 0x20004E22, 0x60000001, 0x70000011, 0x20004E23, 0x40000002,
        ],
    );
    run(
        rt,
        b"a number used, then the end",
        &[0x60000001, 0x70000011, 0x20004E22, 0x60000001, 0x40000002],
    );
    run(
        rt,
        b"a number used, then bit 27",
        &[0x60000001, 0x70000011, 0x20004E22, 0x60000001, 0x78000011],
    );
    run(
        rt,
        b"268435455 used",
        &[
            0x6FFFFFFF, 0x70000011, 0x20004E22, 0x6FFFFFFF, 0x70000011, 0x20004E23, 0x40000002,
        ],
    );
}

// At the size 20 for any of its bits 8 to 27, then 1, then 2.
pub(crate) fn sizes(rt: &(impl Print + Say)) {
    run(
        rt,
        b"bit 8",
        &[0x60000001, 0x70000111, 0x20004E22, 0x40000001],
    );
    run(
        rt,
        b"bit 27",
        &[0x60000001, 0x78000011, 0x20004E22, 0x40000001],
    );
    run(rt, b"bit 8, d = 0", &[0x60000001, 0x70000101]);
    run(rt, b"bit 27, d = 0", &[0x60000001, 0x78000001]);
    run(rt, b"bit 8, m = 0", &[0x60000001, 0x70000110]);
    run(rt, b"bit 27, m = 9", &[0x60000001, 0x78000019]);
    run(rt, b"all bits", &[0x60000001, 0x7FFFFFFF]);
    run(
        rt,
        b"bit 8 in a second entry",
        &[
            0x60000001, 0x70000011, 0x20004E22, 0x60000002, 0x70000111, 0x20004E22, 0x40000002,
        ],
    );
    run(rt, b"d = 0 in a size", &[0x60000001, 0x70000001]);
    run(rt, b"d = 0, m = 0 in a size", &[0x60000001, 0x70000000]);
    run(rt, b"d = 5, m = 0 in a size", &[0x60000001, 0x70000050]);
    run(rt, b"d = 15, m = 15 in a size", &[0x60000001, 0x700000FF]);
    run(
        rt,
        b"d = 5 in a second size",
        &[0x60000001, 0x70000011, 0x20004E22, 0x60000002, 0x70000051],
    );
    run(rt, b"m = 0 in a size", &[0x60000001, 0x70000010]);
    run(rt, b"m = 9 in a size", &[0x60000001, 0x70000019]);
    run(rt, b"m = 15 in a size", &[0x60000001, 0x7000004F]);
    run(
        rt,
        b"m = 9 in a second size",
        &[0x60000001, 0x70000011, 0x20004E22, 0x60000002, 0x70000019],
    );
}

// Words after a new head: their conditions are those of the old form, a place further; 5 stands at the number.
pub(crate) fn words_after(rt: &(impl Print + Say)) {
    run(rt, b"no coordinate after a size", &[0x60000001, 0x70000011]);
    run(
        rt,
        b"the end after a size",
        &[0x60000001, 0x70000011, 0x40000001],
    );
    run(
        rt,
        b"20001 in the new form",
        &[0x60000001, 0x70000011, 0x20009C41, 0x40000001],
    );
    run(
        rt,
        b"20000,1 in the new form",
        &[0x60000001, 0x70000012, 0x20009C40, 0x20004E21, 0x40000001],
    );
    run(
        rt,
        b"load 2 in the new form",
        &[0x60000001, 0x70000011, 0x20004E22, 0x50000002, 0x40000001],
    );
    run(
        rt,
        b"no end in the new form",
        &[0x60000001, 0x70000011, 0x20004E22],
    );
    run(
        rt,
        b"a count of 0 in the new form",
        &[0x60000001, 0x70000011, 0x20004E22, 0x40000000],
    );
    run(
        rt,
        b"a count of 2 in the new form",
        &[0x60000001, 0x70000011, 0x20004E22, 0x40000002],
    );
    run(
        rt,
        b"words follow in the new form",
        &[0x60000001, 0x70000011, 0x20004E22, 0x40000001, 0x40000001],
    );
    run(
        rt,
        b"a zero vector in the new form",
        &[0x60000001, 0x70000011, 0x20004E20, 0x40000001],
    );
    run(
        rt,
        b"a second zero vector, the first see word lost",
        &[
            0x60000001, 0x70000011, 0x20004E22, 0x30000009, 0x60000002, 0x70000011, 0x20004E20,
            0x40000002,
        ],
    );
    run(
        rt,
        b"more vectors than coordinates in the new form",
        &[0x60000001, 0x70000021, 0x20004E21, 0x20004E22, 0x40000001],
    );
    run(
        rt,
        b"a lost see word in the new form",
        &[0x60000001, 0x70000011, 0x20004E22, 0x30000009, 0x40000001],
    );
    run(
        rt,
        b"a see word to 1 where 1048577 is",
        &[0x60100001, 0x70000011, 0x20004E22, 0x30000001, 0x40000001],
    );
    run(
        rt,
        b"a see word to 1048577 where 1 is",
        &[0x60000001, 0x70000011, 0x20004E22, 0x30100001, 0x40000001],
    );
}

// 256 old heads, then this word.
fn after_old(rt: &(impl Print + Say), name: &[u8], w: u32) {
    let mut words = [0u32; 513];
    sample_catalogues::alike(&mut words, 256, 0x11, &[0x20004E21]);
    words[512] = w;
    run(rt, name, &words);
}

// 256 new heads, then this word.
fn after_new(rt: &(impl Print + Say), name: &[u8], w: u32) {
    let mut old = [0u32; 513];
    sample_catalogues::alike(&mut old, 256, 0x11, &[0x20004E21]);
    let mut words = [0u32; 769];
    sample_catalogues::in_new_form(&old, &mut words);
    words[768] = w;
    run(rt, name, &words);
}

// As many heads as there can be, and one more: 10 where its form is another, then 15, then 11.
pub(crate) fn counts(rt: &(impl Print + Say)) {
    many_new(rt, b"255 new heads", 255, 0x11, &[0x20004E21]);
    many_new(rt, b"256 new heads", 256, 0x11, &[0x20004E21]);
    many_new(rt, b"a 257th new head", 257, 0x11, &[0x20004E21]);
    after_new(rt, b"256 new heads, then number 0", 0x60000000);
    after_new(rt, b"256 new heads, then an old one", 0x10010111);
    after_old(rt, b"256 old heads, then a number", 0x60000101);
}

// Bytes with this word first.
fn long(rt: &(impl Print + Say), name: &[u8], w: u32, bytes: &mut [u8]) {
    sample_catalogues::store(&[w], bytes);
    shown::outcome(rt, name, bytes);
}

// Row "whole file" by the form that the first word shows: 8 before 9, and 9 before any word is judged.
pub(crate) fn lengths(rt: &(impl Print + Say)) {
    long(
        rt,
        b"36868 bytes, the first word a number",
        0x60000001,
        &mut [0; 36868],
    );
    long(
        rt,
        b"36872 bytes, the first word a number",
        0x60000001,
        &mut [0; 36872],
    );
    long(
        rt,
        b"36873 bytes, the first word a number",
        0x60000001,
        &mut [0; 36873],
    );
    long(
        rt,
        b"35848 bytes, the first word a number",
        0x60000001,
        &mut [0; 35848],
    );
    long(
        rt,
        b"35848 bytes, the first word an old head",
        0x10000111,
        &mut [0; 35848],
    );
    long(
        rt,
        b"35848 bytes, the first word a size",
        0x70000011,
        &mut [0; 35848],
    );
    long(
        rt,
        b"35848 bytes, the first word an end",
        0x40000000,
        &mut [0; 35848],
    );
    long(
        rt,
        b"35844 bytes, the first word a size",
        0x70000011,
        &mut [0; 35844],
    );
    long(
        rt,
        b"5 bytes, the first word a number",
        0x60000001,
        &mut [0; 5],
    );
}
