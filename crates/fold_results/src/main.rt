// The catalogue in full of document 01 and others: what folding writes to a lent output, what lookups give, and the listing.
#![tactic(auto)]

use cli_output::Say;
use refusals::Refused;

mod drafts;
mod forms;

// Writes a blank and n.
fn field(rt: &(impl Print + Say), n: u64) {
    let _ = rt.write_all(b" ");
    cli_output::number(rt, n);
}

// Writes a blank and a byte as a number.
fn byte(rt: &(impl Print + Say), b: u8) {
    field(rt, b as u64);
}

// Writes bytes as numbers.
fn show(rt: &(impl Print + Say), bytes: &[u8]) {
    for b in bytes {
        byte(rt, *b);
    }
    cli_output::newline(rt);
}

// Writes the refusal and its place, 0 where nothing is refused, and how much came, and ends the line.
fn outcome(rt: &(impl Print + Say), r: Result<usize, Refused>) {
    let (number, place, n) = match r {
        Ok(n) => (0, 0, n),
        Err(r) => (r.refusal.number(), r.place, 0),
    };
    field(rt, number);
    field(rt, place as u64);
    field(rt, n as u64);
    cli_output::newline(rt);
}

// Writes the name of a catalogue, what folding to a lent output says, and the output afterwards.
fn folded_to(rt: &(impl Print + Say), name: &[u8], bytes: &[u8], room: &mut [u8]) {
    let _ = rt.write_all(name);
    cli_output::newline(rt);
    let w = catalogue::fold(bytes, room);
    let _ = rt.write_all(b"fold");
    outcome(rt, w);
    show(rt, room);
}

// The same with an output of 64 bytes.
fn folded(rt: &(impl Print + Say), name: &[u8], bytes: &[u8]) {
    folded_to(rt, name, bytes, &mut [170u8; 64]);
}

// Writes a number, and what its lookup gives: refusal, place and standing number.
fn found(rt: &(impl Print + Say), bytes: &[u8], number: u32) {
    let _ = rt.write_all(b"lookup");
    field(rt, number as u64);
    outcome(
        rt,
        catalogue::lookup(bytes, number).map(|standing| standing as usize),
    );
}

// Writes the listing, or the catalogue's refusal.
fn listed(rt: &(impl Print + Say), bytes: &[u8]) {
    let mut text = [0u8; catalogue_listing::MOST_BYTES];
    match catalogue_listing::list(bytes, &mut text) {
        Ok(n) => {
            let _ = rt.write_all(&text[..n]);
        }
        Err(r) => {
            let _ = rt.write_all(b"refused");
            field(rt, r.refusal.number());
            field(rt, r.place as u64);
            cli_output::newline(rt);
        }
    }
}

// Document 01's catalogue: a see word forward to a folded entry, and one on a folded entry.
fn in_full(rt: &(impl Print + Say)) {
    let b =
        b"\x22\x07\x00\x10\x21\x4e\x00\x20\x20\x4e\x00\x20\x24\x4e\x00\x20\x21\x4e\x00\x20\x22\x09\x00\x10\x22\x4e\x00\x20\x20\x4e\x00\x20\x20\x4e\x00\x20\x23\x4e\x00\x20\x0c\x00\x00\x30\x22\x0c\x00\x10\x20\x4e\x00\x20\x21\x4e\x00\x20\x21\x4e\x00\x20\x20\x4e\x00\x20\x09\x00\x00\x30\x03\x00\x00\x40";
    folded(rt, b"a catalogue in full", b);
    found(rt, b, 7);
    found(rt, b, 9);
    found(rt, b, 12);
    found(rt, b, 8);
    listed(rt, b);
}

// See words to themselves, backward, forward, to folded entries and in a circle.
fn see_words(rt: &(impl Print + Say)) {
    let b =
        b"\x11\x01\x00\x10\x22\x4e\x00\x20\x01\x00\x00\x30\x11\x02\x00\x10\x23\x4e\x00\x20\x04\x00\x00\x30\x11\x03\x00\x10\x1e\x4e\x00\x20\x02\x00\x00\x30\x11\x04\x00\x10\x1d\x4e\x00\x20\x03\x00\x00\x30\x11\x05\x00\x10\x25\x4e\x00\x20\x03\x00\x00\x30\x05\x00\x00\x40";
    folded(rt, b"see words", b);
    found(rt, b, 1);
    found(rt, b, 2);
    found(rt, b, 3);
    found(rt, b, 4);
    found(rt, b, 5);
    listed(rt, b);
}

// Entry 40 is folded into 12, which has no see word: 12 carries its reference.
fn a_folded_reference(rt: &(impl Print + Say)) {
    let b =
        b"\x11\x0c\x00\x10\x22\x4e\x00\x20\x11\x28\x00\x10\x1e\x4e\x00\x20\x07\x00\x00\x30\x11\x07\x00\x10\x23\x4e\x00\x20\x03\x00\x00\x40";
    folded(rt, b"a folded reference", b);
    listed(rt, b);
}

// The own word of 1 leads back to 1, and 3, which is folded into it, has one that leads to 2.
fn own_word_back(rt: &(impl Print + Say)) {
    let b =
        b"\x11\x01\x00\x10\x22\x4e\x00\x20\x03\x00\x00\x30\x11\x02\x00\x10\x25\x4e\x00\x20\x11\x03\x00\x10\x1e\x4e\x00\x20\x02\x00\x00\x30\x03\x00\x00\x40";
    folded(rt, b"an own word that leads back", b);
    listed(rt, b);
}

// The word of 2 leads to the entry that it is folded into, and does not hide that of 3.
fn folded_word_back(rt: &(impl Print + Say)) {
    let b =
        b"\x11\x01\x00\x10\x22\x4e\x00\x20\x11\x02\x00\x10\x1e\x4e\x00\x20\x01\x00\x00\x30\x11\x03\x00\x10\x22\x4e\x00\x20\x04\x00\x00\x30\x11\x04\x00\x10\x25\x4e\x00\x20\x04\x00\x00\x40";
    folded(rt, b"a folded reference that leads back", b);
    listed(rt, b);
}

// Both entries that are folded into 1 have a see word: the first is carried.
fn two_words(rt: &(impl Print + Say)) {
    let b =
        b"\x11\x01\x00\x10\x22\x4e\x00\x20\x11\x02\x00\x10\x23\x4e\x00\x20\x11\x03\x00\x10\x25\x4e\x00\x20\x11\x04\x00\x10\x1e\x4e\x00\x20\x03\x00\x00\x30\x11\x05\x00\x10\x22\x4e\x00\x20\x02\x00\x00\x30\x05\x00\x00\x40";
    folded(rt, b"two folded references", b);
    listed(rt, b);
}

// The words of two folded entries lead to each other's standing entries.
fn folded_circle(rt: &(impl Print + Say)) {
    let b =
        b"\x11\x01\x00\x10\x22\x4e\x00\x20\x11\x02\x00\x10\x23\x4e\x00\x20\x11\x03\x00\x10\x1e\x4e\x00\x20\x02\x00\x00\x30\x11\x04\x00\x10\x1d\x4e\x00\x20\x03\x00\x00\x30\x04\x00\x00\x40";
    folded(rt, b"a circle of folded references", b);
    listed(rt, b);
}

// All words lead to entries that are folded into the same lattice: none is carried.
fn within_one_lattice(rt: &(impl Print + Say)) {
    let b =
        b"\x11\x01\x00\x10\x22\x4e\x00\x20\x11\x02\x00\x10\x1e\x4e\x00\x20\x03\x00\x00\x30\x11\x03\x00\x10\x22\x4e\x00\x20\x01\x00\x00\x30\x03\x00\x00\x40";
    folded(rt, b"references within one lattice", b);
    listed(rt, b);
}

// The own word of 1 leads to 2, so that of 3 is not carried.
fn own_word_first(rt: &(impl Print + Say)) {
    let b =
        b"\x11\x01\x00\x10\x22\x4e\x00\x20\x02\x00\x00\x30\x11\x02\x00\x10\x23\x4e\x00\x20\x11\x03\x00\x10\x1e\x4e\x00\x20\x04\x00\x00\x30\x11\x04\x00\x10\x25\x4e\x00\x20\x04\x00\x00\x40";
    folded(rt, b"an own word before a folded one", b);
    listed(rt, b);
}

// The same vectors with a zero more are of another m.
fn other_m(rt: &(impl Print + Say)) {
    let b =
        b"\x11\x01\x00\x10\x22\x4e\x00\x20\x12\x02\x00\x10\x22\x4e\x00\x20\x20\x4e\x00\x20\x01\x00\x00\x30\x02\x00\x00\x40";
    folded(rt, b"different m", b);
    found(rt, b, 1);
    found(rt, b, 2);
    listed(rt, b);
}

// The second entry stands too, and its vectors (5,8) and (8,13) are not reduced.
fn second_reduced(rt: &(impl Print + Say)) {
    let b =
        b"\x11\x01\x00\x10\x22\x4e\x00\x20\x22\x02\x00\x10\x25\x4e\x00\x20\x28\x4e\x00\x20\x28\x4e\x00\x20\x2d\x4e\x00\x20\x01\x00\x00\x30\x02\x00\x00\x40";
    folded(rt, b"a second entry to reduce", b);
    listed(rt, b);
}

// The end word alone folds to itself; no bytes are no catalogue.
fn no_entries(rt: &(impl Print + Say)) {
    let b = b"\x00\x00\x00\x40";
    folded(rt, b"no entries", b);
    listed(rt, b);
    folded(rt, b"no bytes", b"");
    listed(rt, b"");
}

// The catalogue's own refusal comes first.
fn refused(rt: &(impl Print + Say)) {
    let b = b"\x11\x01\x00\x10\x22\x4e\x00\x20\x09\x00\x00\x30\x01\x00\x00\x40";
    folded(rt, b"a lost see word", b);
    found(rt, b, 1);
    listed(rt, b);
}

// As many entries as a catalogue can have, all of different lattices.
fn many(rt: &(impl Print + Say)) {
    let mut words = [0u32; 1024];
    let n = sample_catalogues::multiples(&mut words, 256);
    let mut bytes = [0u8; 4096];
    let k = sample_catalogues::store(&words[..n], &mut bytes);
    folded(rt, b"256 entries", &bytes[..k]);
    found(rt, &bytes[..k], 256);
    listed(rt, &bytes[..k]);
    forms::renewed(rt, &words[..n], &bytes[..k]);
}

// Two bases of A4 in five coordinates and one of its double, two bases of four roots of E8 in eight, and A4 with three zeros behind, which is of
// another m.
fn wide(rt: &(impl Print + Say)) {
    let b =
        b"\x45\x01\x00\x10\x21\x4e\x00\x20\x1f\x4e\x00\x20\x20\x4e\x00\x20\x20\x4e\x00\x20\x20\x4e\x00\x20\x20\x4e\x00\x20\x21\x4e\x00\x20\x1f\x4e\x00\x20\x20\x4e\x00\x20\x20\x4e\x00\x20\x20\x4e\x00\x20\x20\x4e\x00\x20\x21\x4e\x00\x20\x1f\x4e\x00\x20\x20\x4e\x00\x20\x20\x4e\x00\x20\x20\x4e\x00\x20\x20\x4e\x00\x20\x21\x4e\x00\x20\x1f\x4e\x00\x20\x03\x00\x00\x30\x45\x02\x00\x10\x21\x4e\x00\x20\x1e\x4e\x00\x20\x23\x4e\x00\x20\x1f\x4e\x00\x20\x1f\x4e\x00\x20\x22\x4e\x00\x20\x1d\x4e\x00\x20\x26\x4e\x00\x20\x1b\x4e\x00\x20\x20\x4e\x00\x20\x1f\x4e\x00\x20\x25\x4e\x00\x20\x1e\x4e\x00\x20\x1a\x4e\x00\x20\x24\x4e\x00\x20\x22\x4e\x00\x20\x1c\x4e\x00\x20\x24\x4e\x00\x20\x1b\x4e\x00\x20\x23\x4e\x00\x20\x05\x00\x00\x30\x48\x03\x00\x10\x21\x4e\x00\x20\x21\x4e\x00\x20\x21\x4e\x00\x20\x21\x4e\x00\x20\x21\x4e\x00\x20\x21\x4e\x00\x20\x21\x4e\x00\x20\x21\x4e\x00\x20\x22\x4e\x00\x20\x1e\x4e\x00\x20\x20\x4e\x00\x20\x20\x4e\x00\x20\x20\x4e\x00\x20\x20\x4e\x00\x20\x20\x4e\x00\x20\x20\x4e\x00\x20\x20\x4e\x00\x20\x22\x4e\x00\x20\x1e\x4e\x00\x20\x20\x4e\x00\x20\x20\x4e\x00\x20\x20\x4e\x00\x20\x20\x4e\x00\x20\x20\x4e\x00\x20\x22\x4e\x00\x20\x22\x4e\x00\x20\x20\x4e\x00\x20\x20\x4e\x00\x20\x20\x4e\x00\x20\x20\x4e\x00\x20\x20\x4e\x00\x20\x20\x4e\x00\x20\x48\x04\x00\x10\x23\x4e\x00\x20\x1b\x4e\x00\x20\x21\x4e\x00\x20\x21\x4e\x00\x20\x21\x4e\x00\x20\x21\x4e\x00\x20\x21\x4e\x00\x20\x21\x4e\x00\x20\x22\x4e\x00\x20\x24\x4e\x00\x20\x1a\x4e\x00\x20\x20\x4e\x00\x20\x20\x4e\x00\x20\x20\x4e\x00\x20\x20\x4e\x00\x20\x20\x4e\x00\x20\x22\x4e\x00\x20\x24\x4e\x00\x20\x1e\x4e\x00\x20\x20\x4e\x00\x20\x20\x4e\x00\x20\x20\x4e\x00\x20\x20\x4e\x00\x20\x20\x4e\x00\x20\x1e\x4e\x00\x20\x1e\x4e\x00\x20\x20\x4e\x00\x20\x20\x4e\x00\x20\x20\x4e\x00\x20\x20\x4e\x00\x20\x20\x4e\x00\x20\x20\x4e\x00\x20\x02\x00\x00\x30\x45\x05\x00\x10\x22\x4e\x00\x20\x1e\x4e\x00\x20\x20\x4e\x00\x20\x20\x4e\x00\x20\x20\x4e\x00\x20\x20\x4e\x00\x20\x22\x4e\x00\x20\x1e\x4e\x00\x20\x20\x4e\x00\x20\x20\x4e\x00\x20\x20\x4e\x00\x20\x20\x4e\x00\x20\x22\x4e\x00\x20\x1e\x4e\x00\x20\x20\x4e\x00\x20\x20\x4e\x00\x20\x20\x4e\x00\x20\x20\x4e\x00\x20\x22\x4e\x00\x20\x1e\x4e\x00\x20\x04\x00\x00\x30\x48\x06\x00\x10\x21\x4e\x00\x20\x1f\x4e\x00\x20\x20\x4e\x00\x20\x20\x4e\x00\x20\x20\x4e\x00\x20\x20\x4e\x00\x20\x20\x4e\x00\x20\x20\x4e\x00\x20\x20\x4e\x00\x20\x21\x4e\x00\x20\x1f\x4e\x00\x20\x20\x4e\x00\x20\x20\x4e\x00\x20\x20\x4e\x00\x20\x20\x4e\x00\x20\x20\x4e\x00\x20\x20\x4e\x00\x20\x20\x4e\x00\x20\x21\x4e\x00\x20\x1f\x4e\x00\x20\x20\x4e\x00\x20\x20\x4e\x00\x20\x20\x4e\x00\x20\x20\x4e\x00\x20\x20\x4e\x00\x20\x20\x4e\x00\x20\x20\x4e\x00\x20\x21\x4e\x00\x20\x1f\x4e\x00\x20\x20\x4e\x00\x20\x20\x4e\x00\x20\x20\x4e\x00\x20\x06\x00\x00\x40";
    folded_to(rt, b"five and eight coordinates", b, &mut [170u8; 452]);
    found(rt, b, 1);
    found(rt, b, 2);
    found(rt, b, 3);
    found(rt, b, 4);
    found(rt, b, 5);
    found(rt, b, 6);
    found(rt, b, 8);
    listed(rt, b);
}

// The bytes of the largest catalogue, of 256 drafts alike with four vectors of eight coordinates and a see word each, and of one with an entry more:
// what folding writes, and how long the listing is.
fn largest(rt: &(impl Print + Say), name: &[u8], count: u32) {
    let mut words = [0u32; 8996];
    let n = sample_catalogues::alike(
        &mut words,
        count,
        0x48,
        &[
            0x20004E1F, 0x20004E20, 0x20004E20, 0x20004E20, 0x20004E21, 0x20004E20, 0x20004E20,
            0x20004E20, 0x20004E20, 0x20004E1F, 0x20004E20, 0x20004E20, 0x20004E20, 0x20004E21,
            0x20004E20, 0x20004E20, 0x20004E20, 0x20004E20, 0x20004E1F, 0x20004E20, 0x20004E20,
            0x20004E20, 0x20004E21, 0x20004E20, 0x20004E20, 0x20004E20, 0x20004E20, 0x20004E1F,
            0x20004E20, 0x20004E20, 0x20004E20, 0x20004E21, 0x50000001, 0x30000001,
        ],
    );
    let mut bytes = [0u8; 35984];
    let k = sample_catalogues::store(&words[..n], &mut bytes);
    folded_to(rt, name, &bytes[..k], &mut [170u8; 144]);
    found(rt, &bytes[..k], 256);
    let mut text = [0u8; catalogue_listing::MOST_BYTES];
    let w = catalogue_listing::list(&bytes[..k], &mut text);
    let _ = rt.write_all(b"list");
    outcome(rt, w);
}

// Writes what listing to a lent output says, and the output afterwards.
fn lent(rt: &(impl Print + Say), bytes: &[u8], room: &mut [u8]) {
    let w = catalogue_listing::list(bytes, room);
    let _ = rt.write_all(b"list");
    outcome(rt, w);
    show(rt, room);
}

// The listing of two entries takes 24 bytes: they do not fit into 23, just fit into 24, and leave the rest of 26. That of none takes four. A
// refused catalogue leaves all.
fn short(rt: &(impl Print + Say)) {
    let b = b"\x11\x01\x00\x10\x22\x4e\x00\x20\x11\x02\x00\x10\x1e\x4e\x00\x20\x02\x00\x00\x40";
    listed(rt, b);
    lent(rt, b, &mut [170u8; 23]);
    lent(rt, b, &mut [170u8; 24]);
    lent(rt, b, &mut [170u8; 26]);
    lent(rt, b"\x00\x00\x00\x40", &mut [170u8; 3]);
    lent(rt, b"\x00\x00\x00\x40", &mut [170u8; 4]);
    lent(rt, b"\x01\x00\x00\x40", &mut [170u8; 24]);
}

fn main(rt: HostRuntime) {
    in_full(&rt);
    see_words(&rt);
    a_folded_reference(&rt);
    own_word_back(&rt);
    folded_word_back(&rt);
    two_words(&rt);
    folded_circle(&rt);
    within_one_lattice(&rt);
    own_word_first(&rt);
    other_m(&rt);
    second_reduced(&rt);
    no_entries(&rt);
    refused(&rt);
    many(&rt);
    short(&rt);
    wide(&rt);
    largest(&rt, b"35844 bytes", 256);
    largest(&rt, b"35984 bytes", 257);
    drafts::stands(&rt);
    drafts::two_lattices(&rt);
    drafts::see_words(&rt);
    drafts::two_vectors(&rt);
    drafts::refused(&rt);
    forms::in_full(&rt);
    forms::long_numbers(&rt);
    forms::refused(&rt);
}
