// The words that a text tells, line by line, then the end word; and the line on which a word stands. A first line `new` tells the form of the
// others.
#![tactic(auto)]

ghost use Rattle.std.specs.Prelude.{◌≡◌, [], ◌∷◌, ◌*◌, ◌≤◌, length, unwrap_or, IfSome};
ghost use Rattle.catalogue_records.specs.EntriesIn.{form_in};
ghost use Rattle.text_rules.specs.Encoding.{lines_of, line_words, line_holding, told_holding};
ghost use Rattle.text_lines.specs.Told.{word_told, draft_told, words_in};
ghost use Rattle.text_encoding.specs.Encoded.{Tells};
ghost use Rattle.text_encoding.specs.Stores.{Room, Stores};
ghost use Rattle.text_encoding.specs.Splits.{opens_new, second_line};
ghost use Rattle.text_encoding.specs.Tells.{Adds, LinesTell};

use catalogue_records::Form;
use text_lines::Line;

// A longer text is not read (R13.8).
pub const MOST_TEXT: usize = 131071;

// How far a text is told: the words and the entries so far, and whether a line was wrong.
#[derive(Clone, Copy)]
pub struct Told {
    pub words: usize,
    pub entries: usize,
    pub wrong: bool,
}

// A word at index k, and the index after it. What there is no room for is left out.
fn put(out: &mut [u8], k: usize, w: u32) -> usize
    requires { Room out.old k }
    ensures { Stores (w ∷ []) out.old k out.new result }
{
    if out.len() / 4 <= k {
        return k;
    }
    catalogue_writer::put_word(out, k, w);
    k + 1
}

// Words from index k on.
fn put_words(out: &mut [u8], k: usize, words: &[u32]) -> usize
    requires { Room out.old k }
    ensures { Stores words.now out.old k out.new result }
{
    let mut n = k;
    for w in words {
        n = put(out, n, *w);
    }
    n
}

// The mark of a draft, or none.
fn put_draft(out: &mut [u8], k: usize, draft: bool) -> usize
    requires { Room out.old k }
    ensures { Stores (draft_told draft) out.old k out.new result }
{
    if draft {
        return put(out, k, catalogue_writer::draft_word());
    }
    k
}

// A word, or none.
fn put_told(out: &mut [u8], k: usize, w: Option<u32>) -> usize
    requires { Room out.old k }
    ensures { Stores (word_told w) out.old k out.new result }
{
    match w {
        Some(w) => put(out, k, w),
        None => k,
    }
}

// The words of a line.
pub fn put_line(out: &mut [u8], k: usize, l: &Line) -> usize
    requires room { Room out.old k }
    requires count_bound { l.now.count ≤ 225 }
    ensures { Stores (words_in l.now) out.old k out.new result }
{
    let first = put(out, k, l.head);
    let second = put_told(out, first, l.size);
    let third = put_words(out, second, &l.coordinates[..l.count]);
    let fourth = put_draft(out, third, l.draft);
    put_told(out, fourth, l.see)
}

// One line more. A blank one is passed over.
fn with_line(form: Form, s: &[u8], out: &mut [u8], e: Told) -> Told
    requires room { Room out.old e.words }
    requires entries_bound { e.entries ≤ 131072 }
    ensures { Adds (form_in form) s.now out.old e out.new result }
{
    match text_lines::read_line(form, s) {
        Ok(Some(l)) => Told {
            words: put_line(out, e.words, &l),
            entries: e.entries + 1,
            ..e
        },
        Ok(None) => e,
        Err(_) => Told { wrong: true, ..e },
    }
}

// The words of lines in a form. The contract speaks of the place in the text, so the lines are gone through by it.
fn tell_lines(form: Form, text: &[u8], out: &mut [u8]) -> Told
    requires { length text.now ≤ 131071 }
    ensures lines_tell { LinesTell (form_in form) (lines_of text.now) out.old out.new result }
    ensures words_in_bounds { result.words * 4 ≤ length out.old }
{
    let mut e = Told {
        words: 0,
        entries: 0,
        wrong: false,
    };
    let mut from = 0usize;
    while from < text.len() {
        let n = text_lines::length_before(&text[from..], b'\n');
        let end = from + n;
        e = with_line(form, &text[from..end], out, e);
        from = end + 1;
    }
    Told {
        words: put(out, e.words, catalogue_writer::end_word(e.entries)),
        ..e
    }
}

// Whether the first line of a text is `new`.
pub fn opens_new(text: &[u8]) -> bool
    ensures { result ≡ opens_new text.now }
{
    let n = text_lines::length_before(text, b'\n');
    text_lines::is_new(&text[..n])
}

// Where the second line of a text begins; its end where there is none.
pub fn second_line(text: &[u8]) -> usize
    ensures value { result ≡ second_line text.now }
    ensures upper_bound { result ≤ length text.now }
{
    let n = text_lines::length_before(text, b'\n');
    if n == text.len() {
        return n;
    }
    n + 1
}

// The words of a text that is not too long.
fn tell_text(text: &[u8], out: &mut [u8]) -> Told
    requires { length text.now ≤ 131071 }
    ensures tells { Tells text.now out.old out.new result }
    ensures words_in_bounds { result.words * 4 ≤ length out.old }
{
    if !opens_new(text) {
        return tell_lines(Form::Old, text, out);
    }
    tell_lines(Form::New, &text[second_line(text)..], out)
}

// The words of a text, as many as the output has room for. A text over the limit is wrong, and nothing is stored of it. The last clause
// follows from the other; with it a caller can cut the bytes out.
pub fn tell(text: &[u8], out: &mut [u8]) -> Told
    ensures tells { Tells text.now out.old out.new result }
    ensures words_in_bounds { result.words * 4 ≤ length out.old }
{
    if text.len() <= MOST_TEXT {
        return tell_text(text, out);
    }
    Told {
        words: 0,
        entries: 0,
        wrong: true,
    }
}

// How many words a line that is right has.
fn count_words(l: &Line) -> usize
    requires { l.now.count ≤ 225 }
    ensures { result ≡ length (words_in l.now) }
{
    1 + usize::from(l.size.is_some())
        + l.count
        + usize::from(l.draft)
        + usize::from(l.see.is_some())
}

// How many words a line tells.
fn words_in(form: Form, s: &[u8]) -> usize
    ensures { result ≡ line_words (form_in form) s.now }
{
    match text_lines::read_line(form, s) {
        Ok(Some(l)) => count_words(&l),
        Ok(None) => 0,
        Err(_) => 0,
    }
}

// The line in a form, from 1, whose entry holds the word with index k; none holds the end word. No more lines are passed than bytes,
// and the place in the text is counted.
fn line_among(form: Form, text: &[u8], k: usize) -> Option<usize>
    ensures value { unwrap_or result 0 ≡ line_holding (form_in form) (lines_of text.now) k }
    ensures bounds { IfSome result (λ n. (1 ≤ n) × (n ≤ length text.now)) }
{
    let mut from = 0usize;
    let mut passed = 0usize;
    let mut left = k;
    while from < text.len() {
        let n = text_lines::length_before(&text[from..], b'\n');
        let end = from + n;
        let here = words_in(form, &text[from..end]);
        if left < here {
            return Some(passed + 1);
        }
        if end == text.len() {
            return None;
        }
        left -= here;
        passed += 1;
        from = end + 1;
    }
    None
}

// The line of a text, from 1, whose entry holds the word with index k; none holds the end word. A line `new` is the first.
pub fn line_of_word(text: &[u8], k: usize) -> Option<usize>
    ensures value { unwrap_or result 0 ≡ told_holding (lines_of text.now) k }
    ensures lower_bound { IfSome result (λ n. 1 ≤ n) }
{
    if !opens_new(text) {
        return line_among(Form::Old, text, k);
    }
    let line = line_among(Form::New, &text[second_line(text)..], k)?;
    Some(line + 1)
}
