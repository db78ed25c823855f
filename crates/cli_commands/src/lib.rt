// The sub-commands of the command line: what the words ask for is done, and what they cannot mean is said on standard error.
#![tactic(auto)]

use cli_output::{Say, fail};
use std::io::Read;
use std::rt::Files;
use std::{fs, io, str};

mod help;

// The options of a stream: the number of each line, the reduced vectors.
#[derive(Clone, Copy)]
struct Options {
    numbered: bool,
    basis: bool,
}

// One word more, which may be missing. None where it is no option.
fn with_word(o: Options, word: &[u8]) -> Option<Options> {
    match word {
        b"" => Some(o),
        b"-n" => Some(Options {
            numbered: true,
            ..o
        }),
        b"-r" => Some(Options { basis: true, ..o }),
        _ => None,
    }
}

fn options_of(first: &[u8], second: &[u8]) -> Option<Options> {
    let none = Options {
        numbered: false,
        basis: false,
    };
    with_word(with_word(none, first)?, second)
}

// Answers a stream of requests for reductions.
fn reduce(rt: &(impl Input + Print + Say), first: &[u8], second: &[u8]) {
    match options_of(first, second) {
        Some(o) if !o.basis => cli_requests::reduce(rt, o.numbered),
        _ => help::say_usage(rt),
    }
}

// Answers a stream of requests for nearest vectors.
fn nearest(rt: &(impl Input + Print + Say), first: &[u8], second: &[u8]) {
    match options_of(first, second) {
        Some(o) => cli_requests::nearest(rt, o.numbered, o.basis),
        None => help::say_usage(rt),
    }
}

// Answers a stream of questions whether a target is in a lattice.
fn member(rt: &(impl Input + Print + Say), first: &[u8], second: &[u8]) {
    match options_of(first, second) {
        Some(o) if !o.basis => cli_requests::member(rt, o.numbered),
        _ => help::say_usage(rt),
    }
}

// Does what is done with a whole catalogue that the input holds. False where the word is no such command. It stays a function of its own, so
// that its arrays do not become part of the stack that the streams need.
#[inline(never)]
fn catalogue(
    rt: &(impl Print + Say),
    input: &mut impl Read,
    word: &[u8],
    first: &[u8],
    second: &[u8],
) -> bool {
    match word {
        b"fold" => cli_catalogues::fold(rt, input),
        b"lookup" => cli_catalogues::lookup(rt, input, first),
        b"separate" => cli_catalogues::separate(rt, input, first, second),
        b"list" => cli_catalogues::list(rt, input),
        b"encode" => cli_catalogues::encode(rt, input),
        b"decode" => cli_catalogues::decode(rt, input),
        b"new-form" => cli_catalogues::new_form(rt, input),
        b"old-form" => cli_catalogues::old_form(rt, input),
        _ => return false,
    }
    true
}

// Answers the commands of a merge, a function of its own for the same reason.
#[inline(never)]
fn merge(rt: &(impl Input + Print + Say)) {
    cli_merges::serve(rt);
}

// Whether the command reads a catalogue, from a file that may be named.
fn is_catalogue(word: &[u8]) -> bool {
    matches!(
        word,
        b"fold"
            | b"lookup"
            | b"separate"
            | b"list"
            | b"encode"
            | b"decode"
            | b"new-form"
            | b"old-form"
    )
}

// Opens the file that is named. A name that is no text names none here.
fn opened<R: Files>(rt: &R, path: &[u8]) -> io::Result<R::File> {
    match str::from_utf8(path) {
        Ok(name) => fs::open(rt, name),
        Err(_) => Err(io::Error::new(io::ErrorKind::InvalidInput, "a name that is not UTF-8")),
    }
}

// Does what is done with a catalogue or a merge whose commands come on standard input.
fn from_input(rt: &(impl Input + Print + Say), word: &[u8], first: &[u8], second: &[u8]) {
    if word == b"merge".as_slice() {
        merge(rt);
        return;
    }
    let mut input = rt.reader();
    if !catalogue(rt, &mut input, word, first, second) {
        help::say_usage(rt);
    }
}

// Does what is done with a catalogue from the file that is named, or from standard input where none is.
fn from_source(
    rt: &(impl Files + Input + Print + Say),
    word: &[u8],
    first: &[u8],
    second: &[u8],
    path: &[u8],
) {
    if path.len() == 0 {
        from_input(rt, word, first, second);
        return;
    }
    if !is_catalogue(word) {
        help::say_usage(rt);
        return;
    }
    match opened(rt, path) {
        Ok(mut file) => {
            catalogue(rt, &mut file, word, first, second);
        }
        Err(error) => fail(rt, path, error),
    }
}

// What the program says of itself. False where the word asks for something else.
fn about(rt: &(impl Print + Say), word: &[u8], first: &[u8]) -> bool {
    match word {
        b"help" | b"--help" | b"-h" => help::help(rt, first),
        b"--version" => help::version(rt),
        b"refusals" => cli_answers::sentences::table(rt),
        _ => return false,
    }
    true
}

// Does what the sub-command says. Three words may follow it; words are empty where there are none, and `more` says that there are others.
pub fn run(
    rt: &(impl Files + Input + Print + Say),
    word: &[u8],
    first: &[u8],
    second: &[u8],
    third: &[u8],
    more: bool,
) {
    if more {
        help::say_usage(rt);
        return;
    }
    if word == b"separate".as_slice() {
        from_source(rt, word, first, second, third);
        return;
    }
    if third.len() != 0 {
        help::say_usage(rt);
        return;
    }
    match word {
        b"reduce" => reduce(rt, first, second),
        b"nearest" => nearest(rt, first, second),
        b"member" => member(rt, first, second),
        b"lookup" => from_source(rt, word, first, b"", second),
        _ => with_one(rt, word, first, second),
    }
}

// The commands that one word may follow.
fn with_one(rt: &(impl Files + Input + Print + Say), word: &[u8], first: &[u8], second: &[u8]) {
    if second.len() != 0 {
        help::say_usage(rt);
        return;
    }
    if about(rt, word, first) {
        return;
    }
    from_source(rt, word, b"", b"", first);
}
