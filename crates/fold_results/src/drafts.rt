// Drafts: which entry stands, and which see word it carries. Of each catalogue what folding writes, whether folding that again and writing out
// unfolded leave what they were given, the lookups of 1 to 5, and the
// listing, then the same of it in the new form.
use super::{folded, forms, found, listed};
use cli_output::Say;

// Writes a name, and whether the first n bytes of an output are these.
pub(crate) fn compared(rt: &(impl Print + Say), name: &[u8], bytes: &[u8], out: &[u8], n: usize) {
    let _ = rt.write_all(name);
    let word = match out.get(..n) {
        Some(first) if first == bytes => b": the same\n".as_slice(),
        _ => b": others\n",
    };
    let _ = rt.write_all(word);
}

// Folds a folded catalogue.
fn again(rt: &(impl Print + Say), bytes: &[u8]) {
    let mut out = [170u8; 96];
    let w = catalogue::fold(bytes, &mut out);
    compared(rt, b"folded again", bytes, &out, w.unwrap_or(0));
}

// The same with the first n bytes.
fn again_first(rt: &(impl Print + Say), bytes: &[u8], n: usize) {
    if let Some(first) = bytes.get(..n) {
        again(rt, first);
    }
}

// Folds a catalogue, and what this leaves.
fn folded_again(rt: &(impl Print + Say), bytes: &[u8]) {
    let mut out = [170u8; 96];
    let w = catalogue::fold(bytes, &mut out);
    again_first(rt, &out, w.unwrap_or(0));
}

// Writes a catalogue out unfolded.
fn written_out(rt: &(impl Print + Say), bytes: &[u8]) {
    let mut out = [170u8; 96];
    let w = catalogue::write_out(bytes, &mut out);
    compared(rt, b"written out", bytes, &out, w.unwrap_or(0));
}

// The lookups of 1 to 5, of which 17 says that there is none.
pub(crate) fn all_found(rt: &(impl Print + Say), bytes: &[u8]) {
    found(rt, bytes, 1);
    found(rt, bytes, 2);
    found(rt, bytes, 3);
    found(rt, bytes, 4);
    found(rt, bytes, 5);
}

// The words as bytes, and all that is told of them.
fn told(rt: &(impl Print + Say), name: &[u8], words: &[u32]) {
    let mut bytes = [0u8; 96];
    let n = sample_catalogues::store(words, &mut bytes);
    folded(rt, name, &bytes[..n]);
    folded_again(rt, &bytes[..n]);
    written_out(rt, &bytes[..n]);
    all_found(rt, &bytes[..n]);
    listed(rt, &bytes[..n]);
    forms::renewed(rt, words, &bytes[..n]);
}

// Entries of one lattice: the first that is no draft stands, or the first of all.
pub(crate) fn stands(rt: &(impl Print + Say)) {
    // Both are drafts: the first stands, with its mark.
    told(
        rt,
        b"all drafts",
        &[
            0x10000111, 0x20004E22, 0x50000001, 0x10000211, 0x20004E1E, 0x50000001, 0x40000002,
        ],
    );
    // 2 stands before 3.
    told(
        rt,
        b"a draft first",
        &[
            0x10000111, 0x20004E22, 0x50000001, 0x10000211, 0x20004E1E, 0x10000311, 0x20004E22,
            0x40000003,
        ],
    );
    told(
        rt,
        b"a draft last",
        &[
            0x10000111, 0x20004E22, 0x10000211, 0x20004E1E, 0x50000001, 0x40000002,
        ],
    );
    told(
        rt,
        b"a draft in the middle",
        &[
            0x10000111, 0x20004E22, 0x10000211, 0x20004E1E, 0x50000001, 0x10000311, 0x20004E22,
            0x40000003,
        ],
    );
    told(
        rt,
        b"two drafts first",
        &[
            0x10000111, 0x20004E22, 0x50000001, 0x10000211, 0x20004E1E, 0x50000001, 0x10000311,
            0x20004E22, 0x40000003,
        ],
    );
    told(
        rt,
        b"drafts around one that is none",
        &[
            0x10000111, 0x20004E22, 0x50000001, 0x10000211, 0x20004E1E, 0x10000311, 0x20004E22,
            0x50000001, 0x40000003,
        ],
    );
}

// Drafts only in one of two lattices.
pub(crate) fn two_lattices(rt: &(impl Print + Say)) {
    // 1 is folded into 3, which stands after 2.
    told(
        rt,
        b"drafts in one of two lattices, and one that is none",
        &[
            0x10000111, 0x20004E22, 0x50000001, 0x10000211, 0x20004E23, 0x10000311, 0x20004E1E,
            0x10000411, 0x20004E1D, 0x40000004,
        ],
    );
    // All of the lattice of 1 are drafts.
    told(
        rt,
        b"all drafts in one of two lattices",
        &[
            0x10000111, 0x20004E22, 0x50000001, 0x10000211, 0x20004E23, 0x10000311, 0x20004E1E,
            0x50000001, 0x10000411, 0x20004E1D, 0x40000004,
        ],
    );
    // 2 has the vector of 1 and a zero behind: it is no draft, but of another m.
    told(
        rt,
        b"drafts of one m, and none of another",
        &[
            0x10000111, 0x20004E22, 0x50000001, 0x10000212, 0x20004E22, 0x20004E20, 0x10000311,
            0x20004E1E, 0x50000001, 0x30000002, 0x40000003,
        ],
    );
}

// See words: the own of the standing entry first, then those of the others in their order, drafts among them.
pub(crate) fn see_words(rt: &(impl Print + Say)) {
    told(
        rt,
        b"a standing draft with a see word",
        &[
            0x10000111, 0x20004E22, 0x50000001, 0x30000002, 0x10000211, 0x20004E23, 0x40000002,
        ],
    );
    // 1 has none, and carries that of 3, a draft too.
    told(
        rt,
        b"a standing draft with the see word of another",
        &[
            0x10000111, 0x20004E22, 0x50000001, 0x10000211, 0x20004E23, 0x10000311, 0x20004E1E,
            0x50000001, 0x30000002, 0x40000003,
        ],
    );
    // 2 stands and sees 4; the word of 1, a draft before it, leads to 3.
    told(
        rt,
        b"an own see word before that of an earlier draft",
        &[
            0x10000111, 0x20004E22, 0x50000001, 0x30000003, 0x10000211, 0x20004E1E, 0x30000004,
            0x10000311, 0x20004E23, 0x10000411, 0x20004E25, 0x40000004,
        ],
    );
    // The own word of 2 leads to 1, which is folded into it.
    told(
        rt,
        b"the see word of a draft where the own leads back",
        &[
            0x10000111, 0x20004E22, 0x50000001, 0x30000003, 0x10000211, 0x20004E1E, 0x30000001,
            0x10000311, 0x20004E23, 0x40000003,
        ],
    );
    // 2 stands and has none; 1, a draft, sees 4, and 3 sees 5.
    told(
        rt,
        b"the see word of a draft before that of a later entry",
        &[
            0x10000111, 0x20004E22, 0x50000001, 0x30000004, 0x10000211, 0x20004E1E, 0x10000311,
            0x20004E22, 0x30000005, 0x10000411, 0x20004E23, 0x10000511, 0x20004E25, 0x40000005,
        ],
    );
    // 1 stands and has none; 2 sees 5, and 3, a draft, sees 4.
    told(
        rt,
        b"the see word of an entry before that of a later draft",
        &[
            0x10000111, 0x20004E22, 0x10000211, 0x20004E1E, 0x30000005, 0x10000311, 0x20004E22,
            0x50000001, 0x30000004, 0x10000411, 0x20004E23, 0x10000511, 0x20004E25, 0x40000005,
        ],
    );
    // The word of 1 leads to 2, which stands for it, and does not hide that of 3.
    told(
        rt,
        b"the see word of a draft that leads back",
        &[
            0x10000111, 0x20004E22, 0x50000001, 0x30000002, 0x10000211, 0x20004E1E, 0x10000311,
            0x20004E22, 0x50000001, 0x30000004, 0x10000411, 0x20004E23, 0x40000004,
        ],
    );
    // 2 sees 1, for which 3 stands.
    told(
        rt,
        b"a see word that names a draft",
        &[
            0x10000111, 0x20004E22, 0x50000001, 0x10000211, 0x20004E23, 0x30000001, 0x10000311,
            0x20004E1E, 0x40000003,
        ],
    );
    // 1 and 2 see each other; 3 stands for 2, and carries its word.
    told(
        rt,
        b"a circle of drafts",
        &[
            0x10000111, 0x20004E22, 0x50000001, 0x30000002, 0x10000211, 0x20004E23, 0x50000001,
            0x30000001, 0x10000311, 0x20004E1D, 0x40000003,
        ],
    );
}

// 3 stands for 1, and carries its word; 2 stands alone, a draft that sees 1.
pub(crate) fn two_vectors(rt: &(impl Print + Say)) {
    told(
        rt,
        b"drafts of two vectors",
        &[
            0x10000122, 0x20004E21, 0x20004E20, 0x20004E24, 0x20004E21, 0x50000001, 0x30000002,
            0x10000222, 0x20004E22, 0x20004E20, 0x20004E20, 0x20004E23, 0x50000001, 0x30000001,
            0x10000322, 0x20004E20, 0x20004E21, 0x20004E21, 0x20004E20, 0x40000003,
        ],
    );
}

// The catalogue's own refusal comes first: 18 at a mark with load 2, and 10 where there can be none.
pub(crate) fn refused(rt: &(impl Print + Say)) {
    let b =
        b"\x11\x01\x00\x10\x22\x4e\x00\x20\x01\x00\x00\x50\x11\x02\x00\x10\x1e\x4e\x00\x20\x02\x00\x00\x50\x02\x00\x00\x40";
    folded(rt, b"a mark with load 2", b);
    found(rt, b, 1);
    listed(rt, b);
    let c = b"\x11\x01\x00\x10\x22\x4e\x00\x20\x01\x00\x00\x30\x02\x00\x00\x50\x01\x00\x00\x40";
    folded(rt, b"a mark with load 2 for a head", c);
    found(rt, c, 1);
    listed(rt, c);
}
