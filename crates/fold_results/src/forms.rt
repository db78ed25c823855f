// The new form: what folding writes of it, and whether fold, lookups and listing are those of the old form.
use super::drafts::{all_found, compared};
use super::{folded, found, listed, outcome};
use cli_output::Say;

// Moves the first n bytes to the new form.
fn moved_first(bytes: &[u8], n: usize, out: &mut [u8]) {
    if let Some(first) = bytes.get(..n) {
        let _ = catalogue::new_form(first, out);
    }
}

// Whether the fold of the new form is the fold of the old form, moved.
fn fold_moved(rt: &(impl Print + Say), old: &[u8], new: &[u8]) {
    let mut out = [170u8; 4104];
    let w = catalogue::fold(old, &mut out);
    let mut moved = [170u8; 4104];
    moved_first(&out, w.unwrap_or(0), &mut moved);
    let mut own = [170u8; 4104];
    let v = catalogue::fold(new, &mut own);
    let _ = rt.write_all(b"with room");
    outcome(rt, v);
    compared(rt, b"the moved fold", &moved, &own, 4104);
}

// Whether both have one listing.
fn one_listing(rt: &(impl Print + Say), old: &[u8], new: &[u8]) {
    let mut text = [0u8; catalogue_listing::MOST_BYTES];
    let _ = catalogue_listing::list(old, &mut text);
    let mut other = [0u8; catalogue_listing::MOST_BYTES];
    let _ = catalogue_listing::list(new, &mut other);
    compared(
        rt,
        b"the listing",
        &text,
        &other,
        catalogue_listing::MOST_BYTES,
    );
}

// The words of a catalogue, given in the old form, as bytes of the new form, and what is told of them beside the bytes of the old form.
pub(crate) fn renewed(rt: &(impl Print + Say), words: &[u32], old: &[u8]) {
    let mut others = [0u32; 1026];
    let k = sample_catalogues::in_new_form(words, &mut others);
    let mut new = [0u8; 4104];
    let n = sample_catalogues::store(&others[..k], &mut new);
    folded(rt, b"in the new form", &new[..n]);
    all_found(rt, &new[..n]);
    fold_moved(rt, old, &new[..n]);
    one_listing(rt, old, &new[..n]);
}

// The words as bytes: what folding writes, a lookup, and the listing.
fn told(rt: &(impl Print + Say), name: &[u8], words: &[u32], number: u32) {
    let mut bytes = [0u8; 96];
    let n = sample_catalogues::store(words, &mut bytes);
    folded(rt, name, &bytes[..n]);
    found(rt, &bytes[..n], number);
    listed(rt, &bytes[..n]);
}

// The catalogue in full.
pub(crate) fn in_full(rt: &(impl Print + Say)) {
    told(
        rt,
        b"a catalogue in full with new heads",
        &[
            0x60000007, 0x70000022, 0x20004E21, 0x20004E20, 0x20004E24, 0x20004E21, 0x60000009,
            0x70000022, 0x20004E22, 0x20004E20, 0x20004E20, 0x20004E23, 0x3000000C, 0x6000000C,
            0x70000022, 0x20004E20, 0x20004E21, 0x20004E21, 0x20004E20, 0x30000009, 0x40000003,
        ],
        12,
    );
}

// Numbers for which the old form has no room.
pub(crate) fn long_numbers(rt: &(impl Print + Say)) {
    // 268435455 stands, and carries the word of 1048576.
    told(
        rt,
        b"long numbers",
        &[
            0x6FFFFFFF, 0x70000011, 0x20004E22, 0x60100000, 0x70000011, 0x20004E1E, 0x30000002,
            0x60000002, 0x70000011, 0x20004E23, 0x30100000, 0x40000003,
        ],
        1048576,
    );
    // 1048577 stands for the draft 1, which sees 268435455.
    told(
        rt,
        b"long numbers and drafts",
        &[
            0x60000001, 0x70000011, 0x20004E22, 0x50000001, 0x3FFFFFFF, 0x60100001, 0x70000011,
            0x20004E1E, 0x6FFFFFFF, 0x70000011, 0x20004E23, 0x50000001, 0x40000003,
        ],
        1,
    );
    // 1048577 is not 1.
    told(
        rt,
        b"a long number that is not looked up",
        &[0x60100001, 0x70000011, 0x20004E22, 0x40000001],
        1,
    );
}

// The catalogue's own refusal comes first, at its place in the new form.
pub(crate) fn refused(rt: &(impl Print + Say)) {
    told(
        rt,
        b"a zero vector in the new form",
        &[
            0x60000001, 0x70000011, 0x20004E22, 0x60000002, 0x70000011, 0x20004E20, 0x40000002,
        ],
        1,
    );
    told(
        rt,
        b"a lost see word in the new form",
        &[0x60000001, 0x70000011, 0x20004E22, 0x30000009, 0x40000001],
        1,
    );
    told(
        rt,
        b"heads of both forms",
        &[
            0x60000001, 0x70000011, 0x20004E22, 0x10000211, 0x20004E1E, 0x40000002,
        ],
        1,
    );
    told(
        rt,
        b"bit 8 in a size",
        &[0x60000001, 0x70000111, 0x20004E22, 0x40000001],
        1,
    );
}
