// One catalogue for each refusal of reading and each place that it can stand at, and the catalogues of document 01: what reading gives,
// and what writing it out again leaves of a lent output.
#![tactic(auto)]

use cli_output::Say;

mod drafts;
mod forms;
mod shown;

// The words as bytes.
fn run(rt: &(impl Print + Say), name: &[u8], words: &[u32]) {
    let mut bytes = [0u8; 36868];
    let n = sample_catalogues::store(words, &mut bytes);
    shown::outcome(rt, name, &bytes[..n]);
}

// Entries alike, as many as are counted.
fn many(rt: &(impl Print + Say), name: &[u8], count: u32, shape: u32, rest: &[u32]) {
    let mut words = [0u32; 8961];
    let n = sample_catalogues::alike(&mut words, count, shape, rest);
    run(rt, name, &words[..n]);
}

// The same in the new form.
fn many_new(rt: &(impl Print + Say), name: &[u8], count: u32, shape: u32, rest: &[u32]) {
    let mut old = [0u32; 8961];
    let k = sample_catalogues::alike(&mut old, count, shape, rest);
    let mut words = [0u32; 9217];
    let n = sample_catalogues::in_new_form(&old[..k], &mut words);
    run(rt, name, &words[..n]);
}

// The sole end word, and the catalogue in full.
fn document(rt: &(impl Print + Say)) {
    run(rt, b"the sole word 40000000", &[0x40000000]);
    shown::outcome(rt, b"no bytes", b"");
    run(
        rt,
        b"a catalogue in full",
        &[
            0x10000722, 0x20004E21, 0x20004E20, 0x20004E24, 0x20004E21, 0x10000922, 0x20004E22,
            0x20004E20, 0x20004E20, 0x20004E23, 0x3000000C, 0x10000C22, 0x20004E20, 0x20004E21,
            0x20004E21, 0x20004E20, 0x30000009, 0x40000003,
        ],
    );
}

// Row "whole file": 8 comes before 9, and 35,844 bytes are not too many, in the new form 36,868.
fn whole_file(rt: &(impl Print + Say)) {
    shown::outcome(rt, b"five bytes", b"\x00\x00\x00\x40\x00");
    shown::outcome(rt, b"35849 bytes", &[0; 35849]);
    shown::outcome(rt, b"35848 bytes", &[0; 35848]);
    let rest = [
        0x20004E20, 0x20004E21, 0x20004E20, 0x20004E20, 0x20004E20, 0x20004E20, 0x20004E20,
        0x20004E20, 0x20004E20, 0x20004E20, 0x20004E20, 0x20004E21, 0x20004E20, 0x20004E20,
        0x20004E20, 0x20004E20, 0x20004E20, 0x20004E20, 0x20004E20, 0x20004E20, 0x20004E20,
        0x20004E21, 0x20004E20, 0x20004E20, 0x20004E20, 0x20004E20, 0x20004E20, 0x20004E20,
        0x20004E20, 0x20004E20, 0x20004E20, 0x20004E21, 0x50000001, 0x30000001,
    ];
    many(rt, b"35844 bytes", 256, 0x48, &rest);
    many_new(rt, b"36868 bytes", 256, 0x48, &rest);
}

// Kinds that cannot stand where they do.
fn kinds(rt: &(impl Print + Say)) {
    run(rt, b"a coordinate first", &[0x20004E20]);
    run(rt, b"a see word first", &[0x30000001]);
    run(rt, b"kind 0", &[0x00000000]);
    run(
        rt,
        b"kind 15 after an entry",
        &[0x10000111, 0x20004E21, 0xF0000000],
    );
    run(
        rt,
        b"a see word for a coordinate",
        &[0x10000112, 0x20004E21, 0x30000001],
    );
    run(rt, b"a head for a coordinate", &[0x10000112, 0x10000112]);
    run(rt, b"the end for a coordinate", &[0x10000111, 0x40000001]);
    run(
        rt,
        b"a coordinate too many",
        &[0x10000111, 0x20004E21, 0x20004E21],
    );
    run(
        rt,
        b"a second see word",
        &[0x10000111, 0x20004E21, 0x30000001, 0x30000001],
    );
}

// No word where one is due: after a head, within a vector, after an entry, after a see word.
fn missing(rt: &(impl Print + Say)) {
    run(rt, b"no first coordinate", &[0x10000111]);
    run(rt, b"no second coordinate", &[0x10000112, 0x20004E21]);
    run(rt, b"no end", &[0x10000111, 0x20004E21]);
    run(
        rt,
        b"no end after a see word",
        &[0x10000111, 0x20004E21, 0x30000001],
    );
}

// Row "head", its conditions in their order.
fn heads(rt: &(impl Print + Say)) {
    many(rt, b"a 257th head", 257, 0x11, &[0x20004E21]);
    run(rt, b"d = 0", &[0x10000101]);
    run(rt, b"d = 5, m = 0", &[0x10000150]);
    run(rt, b"m = 0", &[0x10000110]);
    run(rt, b"m = 9, number 0", &[0x10000019]);
    run(rt, b"m = 15", &[0x1000011F]);
    run(rt, b"number 0", &[0x10000011]);
    run(rt, b"a number used", &[0x10000111, 0x20004E21, 0x10000111]);
    run(
        rt,
        b"the greatest number",
        &[0x1FFFFF11, 0x20004E21, 0x40000001],
    );
}

// Row "coordinate", on both sides of its limits.
fn coordinates(rt: &(impl Print + Say)) {
    run(rt, b"20000", &[0x10000111, 0x20009C40, 0x40000001]);
    run(rt, b"20001", &[0x10000111, 0x20009C41, 0x40000001]);
    run(rt, b"-20000", &[0x10000111, 0x20000000, 0x40000001]);
    run(
        rt,
        b"20000,1",
        &[0x10000112, 0x20009C40, 0x20004E21, 0x40000001],
    );
    run(
        rt,
        b"20001 before the last",
        &[0x10000112, 0x20009C41, 0x20004E20],
    );
    run(
        rt,
        b"a second vector too long",
        &[0x10000122, 0x20004E21, 0x20004E20, 0x20009C40, 0x20009C40],
    );
}

// Entries of five and of eight coordinates; vectors that their eighth coordinate makes too long or keeps independent.
fn wide(rt: &(impl Print + Say)) {
    run(
        rt,
        b"m = 5 and m = 8",
        &[
            0x10000125, 0x20004E21, 0x20004E1F, 0x20004E20, 0x20004E20, 0x20004E22, 0x20004E20,
            0x20004E20, 0x20004E20, 0x20004E1F, 0x20004E23, 0x30000002, 0x10000218, 0x20004E21,
            0x20004E22, 0x20004E23, 0x20004E24, 0x20004E25, 0x20004E26, 0x20004E27, 0x20004E18,
            0x40000002,
        ],
    );
    run(
        rt,
        b"the eighth too many",
        &[
            0x10000118, 0x20009C40, 0x20004E20, 0x20004E20, 0x20004E20, 0x20004E20, 0x20004E20,
            0x20004E20, 0x20004E21, 0x40000001,
        ],
    );
    run(
        rt,
        b"no eighth",
        &[
            0x10000118, 0x20004E21, 0x20004E20, 0x20004E20, 0x20004E20, 0x20004E20, 0x20004E20,
            0x20004E20, 0x40000001,
        ],
    );
    run(
        rt,
        b"a sixth of five",
        &[
            0x10000115, 0x20004E21, 0x20004E20, 0x20004E20, 0x20004E20, 0x20004E20, 0x20004E20,
            0x40000001,
        ],
    );
    run(
        rt,
        b"dependent in six coordinates",
        &[
            0x10000126, 0x20004E20, 0x20004E20, 0x20004E20, 0x20004E20, 0x20004E22, 0x20004E1E,
            0x20004E20, 0x20004E20, 0x20004E20, 0x20004E20, 0x20004E1D, 0x20004E23, 0x40000001,
        ],
    );
}

// Row "end": 13, then 14.
fn ends(rt: &(impl Print + Say)) {
    run(rt, b"another count", &[0x40000001]);
    run(
        rt,
        b"another count, words follow",
        &[0x40000001, 0x40000000],
    );
    run(rt, b"words follow", &[0x40000000, 0x40000000]);
    run(
        rt,
        b"words follow an entry",
        &[0x10000111, 0x20004E21, 0x40000001, 0x00000000],
    );
}

// The rows "after reading": 5 at a head, 12 at a see word, 5 before 12.
fn after_reading(rt: &(impl Print + Say)) {
    run(rt, b"a zero vector", &[0x10000111, 0x20004E20, 0x40000001]);
    run(
        rt,
        b"the second is dependent, the first one's see word is lost",
        &[
            0x10000111, 0x20004E21, 0x30000009, 0x10000211, 0x20004E20, 0x40000002,
        ],
    );
    run(
        rt,
        b"more vectors than coordinates",
        &[0x10000121, 0x20004E21, 0x20004E22, 0x40000001],
    );
    run(
        rt,
        b"a lost see word",
        &[0x10000111, 0x20004E21, 0x30000009, 0x40000001],
    );
    run(
        rt,
        b"the second see word is lost",
        &[
            0x10000111, 0x20004E21, 0x30000002, 0x10000211, 0x20004E22, 0x30000003, 0x40000002,
        ],
    );
    run(
        rt,
        b"a see word that names its own",
        &[0x10000111, 0x20004E21, 0x30000001, 0x40000001],
    );
}

fn main(rt: HostRuntime) {
    document(&rt);
    whole_file(&rt);
    kinds(&rt);
    missing(&rt);
    heads(&rt);
    coordinates(&rt);
    wide(&rt);
    ends(&rt);
    after_reading(&rt);
    drafts::marked(&rt);
    drafts::loads(&rt);
    drafts::places(&rt);
    drafts::words_after(&rt);
    drafts::order(&rt);
    forms::new_heads(&rt);
    forms::no_size(&rt);
    forms::other_places(&rt);
    forms::both_forms(&rt);
    forms::numbers(&rt);
    forms::sizes(&rt);
    forms::words_after(&rt);
    forms::counts(&rt);
    forms::lengths(&rt);
}
