// What the program says of itself.
use cli_output::Say;

// Writes the program's name and version.
pub(crate) fn version(rt: &(impl Print + Say)) {
    cli_output::write(rt, b"raghymtos 0.8.0\n");
}

// Says what may be asked for, on standard error.
pub(crate) fn say_usage(rt: &impl Say) {
    rt.say(
        b"usage: raghymtos reduce [-n] | nearest [-n] [-r] | member [-n] | fold [FILE] | lookup NUMBER [FILE] | separate FIRST SECOND [FILE] | list [FILE] | encode [FILE] | decode [FILE] | new-form [FILE] | old-form [FILE] | refusals | help [COMMAND] | --version\n",
    );
}

// Writes lines, up to a write that fails.
fn write_lines(rt: &(impl Print + Say), lines: &[&str]) {
    for text in lines {
        if !(cli_output::write(rt, text.as_bytes()) && cli_output::newline(rt)) {
            return;
        }
    }
}

// Writes what there is, requests first.
fn usage(rt: &(impl Print + Say)) {
    write_lines(
        rt,
        &[
            "usage: raghymtos COMMAND, or raghymtos help COMMAND for an example",
            "reduce [-n]           requests on standard input, one to a line: d m ; the numbers of d vectors of m coordinates",
            "                      answers: reduced PASSES SQUARED LENGTHS, and lines v, U and V",
            "nearest [-n] [-r]     requests: d m ; the numbers of d vectors of m coordinates ; the m numbers of a target",
            "                      answers: nearest SQUARED DISTANCE, and lines c (coefficients), s (the solution in tenths) and v",
            "member [-n]           requests as for nearest; answers: yes where the target is in the lattice, else no",
            "                      all three answer: refused NUMBER PLACE, or: error LINE: what is wrong",
            "                      -n  the number of the request's line before each answer",
            "                      -r  the reduced vectors, on which the coefficients stand, before each answer",
            "fold [FILE]           a catalogue, from standard input where no file is named; writes the folded catalogue:",
            "                      the standing entries, the first of each lattice that is no draft, or its first where all are drafts,",
            "                      each with its own see word where that leads to another, else with the first of its lattice that does",
            "lookup NUMBER [FILE]  writes the standing number of the entry with this number",
            "separate FIRST SECOND [FILE]  writes what separates two entries: same, different m, different d, first POSITION SQUARE",
            "                      or second POSITION SQUARE: a vector of that entry outside the other's lattice, its squared distance",
            "list [FILE]           writes entries and standing entries, then each entry: number, standing number,",
            "                      number that its own see word leads to, passes; under a standing entry lines v",
            "decode [FILE]         writes the entries as text, one to a line: number d m ; coordinates ; draft ; see",
            "                      draft only where the entry is one, the last part only where there is a see word",
            "                      the first line is new where the catalogue is in the new form",
            "encode [FILE]         reads that text and writes the catalogue",
            "new-form [FILE]       reads a catalogue in the old form and writes it in the new one, whose numbers go up to 268435455",
            "old-form [FILE]       reads a catalogue in the new form and writes it in the old one, whose numbers go up to 1048575",
            "                      the other commands take both forms, and fold writes the one that it read",
            "refusals              what each number of a refusal means",
            "What is no answer is said on standard error; list, separate, reduce, nearest and member have refused NUMBER PLACE for an answer.",
            "The streams run on a stack of 256 KB, the commands for catalogues on one of 2 MB.",
        ],
    );
}

// Writes an example of a stream's command.
fn stream_example(rt: &(impl Print + Say), command: &[u8]) -> bool {
    match command {
        b"reduce" => {
            write_lines(
                rt,
                &[
                    "$ echo \"2 2 ; 1 33 0 251\" | raghymtos reduce",
                    "reduced 2 233 274",
                    "v -8 -13",
                    "v -15 7",
                    "U -8 1",
                    "U -15 2",
                    "V -2 1",
                    "V -15 8",
                ],
            );
        }
        b"nearest" => {
            write_lines(
                rt,
                &[
                    "$ echo \"2 2 ; 20 0 10 20 ; 14 9\" | raghymtos nearest -r",
                    "v 20 0",
                    "v 10 20",
                    "nearest 117",
                    "c 1 0",
                    "s 5 4",
                    "v 20 0",
                ],
            );
        }
        b"member" => {
            write_lines(
                rt,
                &[
                    "$ echo \"2 2 ; 20 0 10 20 ; 50 20\" | raghymtos member",
                    "yes",
                ],
            );
        }
        _ => return false,
    }
    true
}

// Writes an example of a command for catalogues.
fn catalogue_example(rt: &(impl Print + Say), command: &[u8]) -> bool {
    match command {
        b"encode" | b"decode" => {
            write_lines(
                rt,
                &[
                    "$ printf '7 2 2 ; 1 0 4 1\\n9 2 2 ; 2 0 0 3 ; draft ; 7\\n' | raghymtos encode > two.catalogue",
                    "$ raghymtos decode two.catalogue",
                    "7 2 2 ; 1 0 4 1",
                    "9 2 2 ; 2 0 0 3 ; draft ; 7",
                ],
            );
        }
        b"new-form" => {
            write_lines(
                rt,
                &[
                    "$ raghymtos new-form two.catalogue | raghymtos decode",
                    "new",
                    "7 2 2 ; 1 0 4 1",
                    "9 2 2 ; 2 0 0 3 ; draft ; 7",
                ],
            );
        }
        b"old-form" => {
            write_lines(
                rt,
                &[
                    "$ raghymtos new-form two.catalogue | raghymtos old-form | raghymtos decode",
                    "7 2 2 ; 1 0 4 1",
                    "9 2 2 ; 2 0 0 3 ; draft ; 7",
                ],
            );
        }
        b"fold" => {
            write_lines(
                rt,
                &[
                    "$ raghymtos fold two.catalogue | raghymtos decode",
                    "7 2 2 ; 1 0 0 1",
                    "9 2 2 ; 2 0 0 3 ; draft ; 7",
                ],
            );
        }
        b"lookup" => {
            write_lines(rt, &["$ raghymtos lookup 9 two.catalogue", "9"]);
        }
        b"separate" => {
            write_lines(
                rt,
                &["$ raghymtos separate 9 7 two.catalogue", "second 1 1"],
            );
        }
        b"list" => {
            write_lines(
                rt,
                &[
                    "$ raghymtos list two.catalogue",
                    "2 2",
                    "7 7 0 1",
                    "v 1 0",
                    "v 0 1",
                    "9 9 7 1",
                    "v 2 0",
                    "v 0 3",
                ],
            );
        }
        _ => return false,
    }
    true
}

// Writes an example of the merge.
fn merge_example(rt: &(impl Print + Say), command: &[u8]) -> bool {
    if command != b"merge".as_slice() {
        return false;
    }
    write_lines(
        rt,
        &[
            "$ printf 'add 7 2 2 ; 1 0 4 1 ; 9\\nlook 9\\nclose\\nadd 9 2 2 ; 0 1 1 0\\nlook 9\\nclose\\nlook 9\\nfold\\n' | raghymtos merge",
            "added",
            "not yet",
            "refused 12 6",
            "added",
            "standing 7 provisional",
            "closed",
            "standing 7",
            "new",
            "7 2 2 ; 1 0 0 1",
        ],
    );
    true
}

// Writes what there is, and behind it an example of the command that is named.
pub(crate) fn help(rt: &(impl Print + Say), command: &[u8]) {
    usage(rt);
    let known = stream_example(rt, command)
        || catalogue_example(rt, command)
        || merge_example(rt, command);
    if !known && command.len() != 0 {
        say_usage(rt);
    }
}
