// Drafts: marks that are read, their load, the places where none can stand, and what comes before and after them.
use super::run;
use cli_output::Say;

// Marks that are read: of one coordinate, before a see word, of the second of three entries, and of two vectors with a see word.
pub(crate) fn marked(rt: &(impl Print + Say)) {
    run(
        rt,
        b"a draft",
        &[0x10000111, 0x20004E22, 0x50000001, 0x40000001],
    );
    run(
        rt,
        b"a draft with a see word",
        &[0x10000111, 0x20004E22, 0x50000001, 0x30000001, 0x40000001],
    );
    run(
        rt,
        b"the second of three",
        &[
            0x10000111, 0x20004E22, 0x10000211, 0x20004E23, 0x50000001, 0x10000311, 0x20004E24,
            0x40000003,
        ],
    );
    run(
        rt,
        b"a draft of two vectors",
        &[
            0x10000722, 0x20004E21, 0x20004E20, 0x20004E24, 0x20004E21, 0x50000001, 0x3000000C,
            0x10000C22, 0x20004E22, 0x20004E20, 0x20004E20, 0x20004E23, 0x40000002,
        ],
    );
}

// Every load but 1 is refused where a mark can stand.
pub(crate) fn loads(rt: &(impl Print + Say)) {
    run(
        rt,
        b"load 0",
        &[0x10000111, 0x20004E22, 0x50000000, 0x40000001],
    );
    run(
        rt,
        b"load 2",
        &[0x10000111, 0x20004E22, 0x50000002, 0x40000001],
    );
    run(
        rt,
        b"load 257",
        &[0x10000111, 0x20004E22, 0x50000101, 0x40000001],
    );
    run(
        rt,
        b"the greatest load",
        &[0x10000111, 0x20004E22, 0x5FFFFFFF, 0x40000001],
    );
    run(
        rt,
        b"load 0 before a see word",
        &[0x10000111, 0x20004E22, 0x50000000, 0x30000001, 0x40000001],
    );
    run(
        rt,
        b"load 2 before a mark",
        &[0x10000111, 0x20004E22, 0x50000002, 0x50000001, 0x40000001],
    );
    run(
        rt,
        b"load 2 as the last word",
        &[0x10000111, 0x20004E22, 0x50000002],
    );
    run(
        rt,
        b"load 2 in a second entry",
        &[
            0x10000111, 0x20004E22, 0x50000001, 0x10000211, 0x20004E23, 0x50000002, 0x40000002,
        ],
    );
}

// Places where no mark can stand: 10 whatever its load, and 14 behind the end word.
pub(crate) fn places(rt: &(impl Print + Say)) {
    run(rt, b"a mark alone", &[0x50000001]);
    run(
        rt,
        b"a mark first",
        &[0x50000001, 0x10000111, 0x20004E22, 0x40000001],
    );
    run(
        rt,
        b"load 2 first",
        &[0x50000002, 0x10000111, 0x20004E22, 0x40000001],
    );
    run(
        rt,
        b"a mark for the first coordinate",
        &[0x10000111, 0x50000001, 0x20004E22, 0x40000001],
    );
    run(
        rt,
        b"load 2 for the first coordinate",
        &[0x10000111, 0x50000002, 0x20004E22, 0x40000001],
    );
    run(
        rt,
        b"a mark for the second coordinate",
        &[0x10000112, 0x20004E22, 0x50000001, 0x20004E22, 0x40000001],
    );
    run(
        rt,
        b"load 0 for the second coordinate",
        &[0x10000112, 0x20004E22, 0x50000000, 0x20004E22, 0x40000001],
    );
    run(
        rt,
        b"a mark between two vectors",
        &[
            0x10000122, 0x20004E22, 0x20004E20, 0x50000001, 0x20004E20, 0x20004E22, 0x40000001,
        ],
    );
    run(
        rt,
        b"load 2 between two vectors",
        &[
            0x10000122, 0x20004E22, 0x20004E20, 0x50000002, 0x20004E20, 0x20004E22, 0x40000001,
        ],
    );
    run(
        rt,
        b"a second mark",
        &[0x10000111, 0x20004E22, 0x50000001, 0x50000001, 0x40000001],
    );
    run(
        rt,
        b"a second mark with load 2",
        &[0x10000111, 0x20004E22, 0x50000001, 0x50000002, 0x40000001],
    );
    run(
        rt,
        b"a mark after the see word, for a head",
        &[
            0x10000111, 0x20004E22, 0x30000001, 0x50000001, 0x10000211, 0x20004E23, 0x40000002,
        ],
    );
    run(
        rt,
        b"load 2 after the see word, for a head",
        &[
            0x10000111, 0x20004E22, 0x30000001, 0x50000002, 0x10000211, 0x20004E23, 0x40000002,
        ],
    );
    run(
        rt,
        b"a mark before and after the see word",
        &[
            0x10000111, 0x20004E22, 0x50000001, 0x30000001, 0x50000001, 0x40000001,
        ],
    );
    run(
        rt,
        b"a mark after the end",
        &[0x10000111, 0x20004E22, 0x40000001, 0x50000001],
    );
    run(
        rt,
        b"load 2 after the end",
        &[0x10000111, 0x20004E22, 0x40000001, 0x50000002],
    );
    run(
        rt,
        b"a mark after an end of no entries",
        &[0x40000000, 0x50000001],
    );
}

// Words after a mark: a coordinate, none, two see words, the next head with its conditions, and the end, which counts drafts.
pub(crate) fn words_after(rt: &(impl Print + Say)) {
    run(
        rt,
        b"a coordinate after a mark",
        &[0x10000111, 0x20004E22, 0x50000001, 0x20004E22, 0x40000001],
    );
    run(
        rt,
        b"no word after a mark",
        &[0x10000111, 0x20004E22, 0x50000001],
    );
    run(
        rt,
        b"two see words after a mark",
        &[
            0x10000111, 0x20004E22, 0x50000001, 0x30000001, 0x30000001, 0x40000001,
        ],
    );
    run(
        rt,
        b"a number that a draft has",
        &[
            0x10000111, 0x20004E22, 0x50000001, 0x10000111, 0x20004E22, 0x40000002,
        ],
    );
    run(
        rt,
        b"d = 0 after a draft",
        &[0x10000111, 0x20004E22, 0x50000001, 0x10000201, 0x40000002],
    );
    run(
        rt,
        b"a draft that is not counted",
        &[0x10000111, 0x20004E22, 0x50000001, 0x40000000],
    );
}

// 4 comes before 18, and 18 before what is judged after reading: 5 at a head, 12 at a see word, which drafts have too.
pub(crate) fn order(rt: &(impl Print + Say)) {
    run(
        rt,
        b"20001, then load 0",
        &[0x10000111, 0x20009C41, 0x50000000, 0x40000001],
    );
    run(
        rt,
        b"load 0 after a zero vector",
        &[0x10000111, 0x20004E20, 0x50000000, 0x40000001],
    );
    run(
        rt,
        b"load 0 before a lost see word",
        &[0x10000111, 0x20004E22, 0x50000000, 0x30000009, 0x40000001],
    );
    run(
        rt,
        b"a draft with a zero vector",
        &[0x10000111, 0x20004E20, 0x50000001, 0x40000001],
    );
    run(
        rt,
        b"a draft with a lost see word",
        &[0x10000111, 0x20004E22, 0x50000001, 0x30000009, 0x40000001],
    );
}
