// The words of a line of text: `number d m ; coordinates`, `; draft` where it is a draft, and `; see` where there is a see word. What stands
// behind a `#` is a comment. A line may be `new` instead, which tells the form of the others.
#![tactic(auto)]

ghost use Rattle.std.specs.Prelude.{◌≡◌, cond, None, Some, ◌++◌, ◌-◌, ◌≤◌, ◌<◌, length, replicate, IfOk, IfSome};
ghost use Rattle.integers.specs.Every.{any};
ghost use Rattle.catalogue_rules.specs.Catalogue.{most_number};
ghost use Rattle.catalogue_rules.specs.Write.{encoded_coordinates};
ghost use Rattle.catalogue_records.specs.EntriesIn.{form_in};
ghost use Rattle.input_checks.specs.Any.{beyond};
ghost use Rattle.text_parts.specs.Parts.{taken_at};
ghost use Rattle.text_rules.specs.Encoding.{fits, is_draft, is_new_text, is_new};
ghost use Rattle.text_lines.specs.Told.{stop_mistake, head_checked, head_told, is_last, last_see, see_rest, last_rest, mark_rest, rest_read, parts_read, content_read, text_read, line_read};
ghost use Rattle.text_lines.specs.Lengths.{length_before};

use catalogue_records::{Catalogue, Form};
use text_parts::first_part::{count, is_count};
use text_parts::tokens::{blanks, read_token};
use text_parts::{Kind, read_part};

// What is wrong with a line.
#[derive(Clone, Copy, PartialEq, Eq)]
pub enum Mistake {
    PartMissing,
    TooLarge,
    TooMany,
    NoNumber,
    NotThree,
    NoHead,
    NotAll,
    Beyond,
    NoSee,
}

// The words of a line: a head, which has a second word, its size, in the new form; coordinates; the mark, of which the line tells whether it
// stands there; and a see word or none.
#[derive(Clone, Copy)]
pub struct Line {
    pub head: u32,
    pub size: Option<u32>,
    pub count: usize,
    pub coordinates: [u32; 225],
    pub draft: bool,
    pub see: Option<u32>,
}

// The words of a head: its first word, and its size if that is a word of its own.
#[derive(Clone, Copy)]
struct Head {
    first: u32,
    size: Option<u32>,
}

// What follows the coordinates: whether it begins with the mark, and the see word.
#[derive(Clone, Copy)]
struct Rest {
    draft: bool,
    see: Option<u32>,
}

// What is wrong where a part stops in a way that it may not.
fn wrong_stop(stop: Kind) -> Mistake
    ensures { result ≡ stop_mistake stop }
{
    match stop {
        Kind::End => Mistake::PartMissing,
        Kind::TooLarge => Mistake::TooLarge,
        Kind::TooMany => Mistake::TooMany,
        _ => Mistake::NoNumber,
    }
}

// Whether nothing or one part more may follow.
fn is_last(stop: Kind) -> bool
    ensures { result ≡ is_last stop }
{
    matches!(stop, Kind::Semicolon | Kind::End)
}

// Whether z is from 0 to the most that a field holds.
fn fits(most: usize, z: i64) -> bool
    ensures { result ≡ fits most z }
{
    is_count(z) && count(z) <= most
}

// The most that a head's number can be.
fn most_number(form: Form) -> usize
    ensures { result ≡ most_number (form_in form) }
{
    match form {
        Form::Old => Catalogue::MOST_OLD_NUMBER as usize,
        Form::New => Catalogue::MOST_NUMBER as usize,
    }
}

// Refuses a first part for how it stops, for how many numbers it has, or for one that does not fit.
fn check_head(form: Form, stop: Kind, n: usize, number: i64, d: i64, m: i64) -> Result<(), Mistake>
    ensures { result ≡ head_checked (form_in form) stop n number d m }
{
    if stop != Kind::Semicolon {
        return Err(wrong_stop(stop));
    }
    if n != 3 {
        return Err(Mistake::NotThree);
    }
    if fits(most_number(form), number) && fits(15, d) && fits(15, m) {
        return Ok(());
    }
    Err(Mistake::NoHead)
}

// The words of a head in a form.
fn head_words(form: Form, number: u32, d: usize, m: usize) -> Head
    requires number_bound { number ≤ most_number (form_in form) }
    requires d_bound { d < 16 }
    requires m_bound { m < 16 }
    ensures { result ≡ head_told (form_in form) number d m }
{
    match form {
        Form::Old => Head {
            first: catalogue_writer::head_word(number, d, m),
            size: None,
        },
        Form::New => Head {
            first: catalogue_writer::head_number_word(number),
            size: Some(catalogue_writer::head_size_word(d, m)),
        },
    }
}

// The words of up to 225 coordinates, as many as d and m in four bits each can ask for, unless one is beyond the limit.
fn coordinate_words(z: &[i64]) -> Option<[u32; 225]>
    requires { length z.now ≤ 225 }
    ensures { result ≡ cond (any beyond z.now) None (Some (encoded_coordinates z.now ++ replicate (225 - length z.now) 0)) }
{
    let mut words = [0; 225];
    for i in 0..z.len() {
        if input_checks::beyond(z[i]) {
            return None;
        }
        words[i] = catalogue_writer::coordinate_word(z[i]);
    }
    Some(words)
}

// The see word that the last part tells.
fn see_of(s: &[u8]) -> Option<u32>
    ensures { result ≡ last_see (taken_at 1 s.now) }
{
    let mut z = [0; 1];
    let part = read_part(s, &mut z);
    let [number] = z;
    if part.stop == Kind::End && part.count == 1 && fits(Catalogue::MOST_NUMBER as usize, number) {
        return Some(catalogue_writer::see_word(count(number) as u32));
    }
    None
}

// The part of the see word, with the mark before it or not.
fn see_rest(s: &[u8], draft: bool) -> Option<Rest>
    ensures { result ≡ see_rest draft (last_see (taken_at 1 s.now)) }
{
    let number = see_of(s)?;
    Some(Rest {
        draft,
        see: Some(number),
    })
}

// What follows `draft`: nothing, or the part of the see word.
fn after_draft(s: &[u8]) -> Option<Rest>
    ensures { result ≡ last_rest s.now }
{
    let t = read_token(s);
    match t.kind {
        Kind::End => Some(Rest {
            draft: true,
            see: None,
        }),
        Kind::Semicolon => see_rest(&s[t.length..], true),
        _ => None,
    }
}

// The part behind the coordinates: `draft` and what follows it, or the see word.
fn marked(s: &[u8]) -> Option<Rest>
    ensures { result ≡ mark_rest s.now }
{
    match s[blanks(s)..].strip_prefix(b"draft") {
        Some(rest) => after_draft(rest),
        None => see_rest(s, false),
    }
}

// What follows the coordinates, which may stop as they do: nothing, or that part.
fn rest_of(stop: Kind, s: &[u8]) -> Option<Rest>
    ensures { result ≡ rest_read stop s.now }
{
    if stop == Kind::End {
        return Some(Rest {
            draft: false,
            see: None,
        });
    }
    marked(s)
}

// The parts after the head: n coordinates, the mark or none, and a see word or none.
fn with_parts(s: &[u8], head: Head, n: usize) -> Result<Line, Mistake>
    ensures value { result ≡ parts_read head n (taken_at 225 s.now) s.now }
    ensures count_bound { IfOk result (λ l. l.count ≤ 225) }
{
    let mut z = [0; 225];
    let part = read_part(s, &mut z);
    if !is_last(part.stop) {
        return Err(wrong_stop(part.stop));
    }
    if part.count != n {
        return Err(Mistake::NotAll);
    }
    let coordinates = coordinate_words(&z[..n]).ok_or(Mistake::Beyond)?;
    let rest = rest_of(part.stop, &s[part.length..]).ok_or(Mistake::NoSee)?;
    Ok(Line {
        head: head.first,
        size: head.size,
        count: n,
        coordinates,
        draft: rest.draft,
        see: rest.see,
    })
}

// A line that is not blank, without its comment.
fn read_content(form: Form, s: &[u8]) -> Result<Line, Mistake>
    ensures value { result ≡ content_read (form_in form) s.now }
    ensures count_bound { IfOk result (λ l. l.count ≤ 225) }
{
    let mut z = [0; 3];
    let part = read_part(s, &mut z);
    let [number, d, m] = z;
    check_head(form, part.stop, part.count, number, d, m)?;
    let d = count(d);
    let m = count(m);
    let head = head_words(form, count(number) as u32, d, m);
    with_parts(&s[part.length..], head, d * m)
}

// How many bytes stand before the first byte b, all of them where there is none.
pub fn length_before(s: &[u8], b: u8) -> usize
    ensures value { result ≡ length_before b s.now }
    ensures upper_bound { result ≤ length s.now }
{
    s.iter().position(|&c| c == b).unwrap_or(s.len())
}

// A line without its comment.
fn read_text(form: Form, s: &[u8]) -> Result<Option<Line>, Mistake>
    ensures value { result ≡ text_read (form_in form) s.now }
    ensures count_bound { IfOk result (λ o. IfSome o (λ l. l.count ≤ 225)) }
{
    if blanks(s) == s.len() {
        return Ok(None);
    }
    let line = read_content(form, s)?;
    Ok(Some(line))
}

// A line of a text in a form: its words, or nothing where it is blank, or what is wrong with it. The last clause follows from the other; with
// it a caller can cut the coordinates out.
pub fn read_line(form: Form, s: &[u8]) -> Result<Option<Line>, Mistake>
    ensures value { result ≡ line_read (form_in form) s.now }
    ensures count_bound { IfOk result (λ o. IfSome o (λ l. l.count ≤ 225)) }
{
    let n = length_before(s, b'#');
    read_text(form, &s[..n])
}

// Whether a line without its comment is `new`, with nothing but blanks around it.
fn is_new_text(s: &[u8]) -> bool
    ensures { result ≡ is_new_text s.now }
{
    match s[blanks(s)..].strip_prefix(b"new") {
        Some(rest) => blanks(rest) == rest.len(),
        None => false,
    }
}

// Whether a line is `new`.
pub fn is_new(s: &[u8]) -> bool
    ensures { result ≡ is_new s.now }
{
    let end = length_before(s, b'#');
    is_new_text(&s[..end])
}
