// Whole catalogues from a file or standard input: folded, moved to the other form, looked up, listed, two entries held against each other, and
// turned into text and back. What is no answer goes to standard error, but for the listing and the separation, whose text is that of a refusal then. What is
// written, no contract can say: the answers themselves are under contract in the catalogue.
#![tactic(auto)]

use catalogue_records::Catalogue;
use cli_answers::sentences::{say_refused, say_refused_line};
use cli_entries::entry_in;
use cli_output::Say;
use refusals::{Refusal, Refused};
use std::io::Read;

mod mistakes;

// Room for a word more than a catalogue can have, so that too many words are seen.
const MOST_TOLD: usize = Catalogue::MOST_BYTES + 4;

// Room for a byte more than the longest text, so that a longer one is seen.
const MOST_READ: usize = text_encoding::MOST_TEXT + 1;

// Writes the first n bytes of a text that has so many.
fn write_first(rt: &(impl Print + Say), bytes: &[u8], n: usize) {
    if let Some(text) = bytes.get(..n) {
        cli_output::write(rt, text);
    }
}

// Writes the catalogue that a service makes of the one that is read, or says why it makes none.
fn write_made<S: Fn(&[u8], &mut [u8]) -> Result<usize, Refused>>(
    rt: &(impl Print + Say),
    input: &mut impl Read,
    service: S,
)
    requires { S.IsAlwaysCallable service }
{
    let mut bytes = [0; cli_input::MOST_KEPT];
    let Some(n) = cli_input::read_catalogue(rt, input, &mut bytes) else {
        return;
    };
    let mut out = [0; Catalogue::MOST_BYTES];
    match service(&bytes[..n], &mut out) {
        Ok(length) => write_first(rt, &out, length),
        Err(r) => say_refused(rt, r),
    }
}

// Writes the folded catalogue.
pub fn fold(rt: &(impl Print + Say), input: &mut impl Read) {
    write_made(rt, input, catalogue::fold);
}

// Writes a catalogue of the old form in the new one.
pub fn new_form(rt: &(impl Print + Say), input: &mut impl Read) {
    write_made(rt, input, catalogue::new_form);
}

// Writes a catalogue of the new form in the old one.
pub fn old_form(rt: &(impl Print + Say), input: &mut impl Read) {
    write_made(rt, input, catalogue::old_form);
}

// Writes a number in a line.
fn write_number(rt: &(impl Print + Say), n: u32) {
    let mut text = [0; 64];
    let k = cli_output::put_number(&mut text, 0, n as u64);
    let end = text_output::put_byte(&mut text, k, b'\n');
    cli_output::write(rt, &text[..end]);
}

// Writes the standing number of the entry with this number.
fn look_up(rt: &(impl Print + Say), input: &mut impl Read, number: u32) {
    let mut bytes = [0; cli_input::MOST_KEPT];
    let Some(n) = cli_input::read_catalogue(rt, input, &mut bytes) else {
        return;
    };
    match catalogue::lookup(&bytes[..n], number) {
        Ok(standing) => write_number(rt, standing),
        Err(r) => say_refused(rt, r),
    }
}

// The lookup of the number that a word writes.
pub fn lookup(rt: &(impl Print + Say), input: &mut impl Read, word: &[u8]) {
    match entry_in(word) {
        Some(number) => look_up(rt, input, number),
        None => rt.say(b"error: lookup wants the number of an entry\n"),
    }
}

// Writes what separates the entries with these numbers.
fn write_separation(rt: &(impl Print + Say), input: &mut impl Read, first: u32, second: u32) {
    let mut bytes = [0; cli_input::MOST_KEPT];
    let Some(n) = cli_input::read_catalogue(rt, input, &mut bytes) else {
        return;
    };
    let mut text = [0; 64];
    let end = match catalogue::separate(&bytes[..n], first, second) {
        Ok(s) => cli_answers::separations::put_separation(&mut text, 0, s),
        Err(r) => cli_answers::put_refused(&mut text, 0, r),
    };
    write_first(rt, &text, end);
}

// What separates the entries whose numbers two words write.
pub fn separate(rt: &(impl Print + Say), input: &mut impl Read, first: &[u8], second: &[u8]) {
    match (entry_in(first), entry_in(second)) {
        (Some(one), Some(other)) => write_separation(rt, input, one, other),
        _ => rt.say(b"error: separate wants the numbers of two entries\n"),
    }
}

// Writes the listing.
pub fn list(rt: &(impl Print + Say), input: &mut impl Read) {
    let mut bytes = [0; cli_input::MOST_KEPT];
    let Some(n) = cli_input::read_catalogue(rt, input, &mut bytes) else {
        return;
    };
    let mut text = [0; catalogue_listing::MOST_BYTES];
    let end = match catalogue_listing::list(&bytes[..n], &mut text) {
        Ok(length) => length,
        Err(r) => cli_answers::put_refused(&mut text, 0, r),
    };
    write_first(rt, &text, end);
}

// Writes the entries of a catalogue as text, a line each.
pub fn decode(rt: &(impl Print + Say), input: &mut impl Read) {
    let mut bytes = [0; cli_input::MOST_KEPT];
    let Some(n) = cli_input::read_catalogue(rt, input, &mut bytes) else {
        return;
    };
    match catalogue::read(&bytes[..n]) {
        Ok(c) => {
            let mut text = [0; catalogue_listing::MOST_BYTES];
            let length = text_decoding::put_entries(c.list(), &mut text);
            write_first(rt, &text, length);
        }
        Err(r) => say_refused(rt, r),
    }
}

// Says the refusal of what a text tells, with the line of its word. That of too many bytes is about the whole.
fn say_told(rt: &impl Say, text: &[u8], r: Refused) {
    if r.refusal == Refusal::TooManyBytes {
        say_refused(rt, r);
        return;
    }
    say_refused_line(rt, r, text_encoding::line_of_word(text, r.place));
}

// Writes the catalogue that a text tells, unless something in it is wrong.
pub fn encode(rt: &(impl Print + Say), input: &mut impl Read) {
    let mut text = [0; MOST_READ];
    let Some(n) = cli_input::read_all(rt, input, &mut text) else {
        return;
    };
    if n == MOST_READ {
        rt.say(b"error: a text of more than 131071 bytes\n");
        return;
    }
    let mut out = [0; MOST_TOLD];
    let e = text_encoding::tell(&text[..n], &mut out);
    if e.wrong {
        mistakes::report_all(rt, &text[..n]);
        return;
    }
    let k = e.words * 4;
    match catalogue::read(&out[..k]) {
        Ok(_) => write_first(rt, &out, k),
        Err(r) => say_told(rt, &text[..n], r),
    }
}
