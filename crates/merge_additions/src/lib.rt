// One entry's bytes read after the entries that were added before: 8, then word by word, then 5.
#![tactic(auto)]

ghost use Rattle.std.specs.Prelude.{◌≡◌, ◌≤◌, length};
ghost use Rattle.catalogue_rules.specs.Catalogue.{most_numbers};
ghost use Rattle.catalogue_rules.specs.Word.{words_of};
ghost use Rattle.catalogue_rules.specs.Read.{outside};
ghost use Rattle.merge_rules.specs.Addition.{add_words, addition};
ghost use Rattle.catalogue_steps.specs.Words.{word_in};
ghost use Rattle.catalogue_steps.specs.Rows.{turn_in};
ghost use Rattle.catalogue_steps.specs.Readings.{ReadyFor};
ghost use Rattle.merge_additions.specs.Additions.{addition_in, EntryStored, Earlier};
ghost use Rattle.merge_additions.specs.Turns.{form_before, start_read, stands_in, add_read, kept_read, last_read};
ghost use Rattle.merge_additions.specs.Progress.{Read};

use catalogue_records::{Entry, Form, NUMBERS};
use catalogue_steps::entries::dependent;
use catalogue_steps::parts::{first_numbers, store};
use catalogue_steps::reading::{Phase, Reading};
use catalogue_steps::words::{Word, decode, word_at};
use refusals::{Refusal, Refused};

// The form of the entries before: old where there is none.
fn form_before(count: usize) -> Form
    ensures { result ≡ form_before count }
{
    if count == 0 { Form::Old } else { Form::New }
}

// No word is read after the entries before.
fn start(count: usize) -> Reading
    ensures { result ≡ start_read count }
{
    Reading {
        count,
        form: form_before(count),
        ..Reading::start()
    }
}

// Whether a word may stand: first the number of a head in the new form, and after the coordinates a mark or a see word; nothing after the entry.
fn may_stand(phase: Phase, first: bool, w: Word) -> bool
    ensures { result ≡ stands_in phase first (word_in w) }
{
    match phase {
        Phase::Outside => first && w.opens(Form::New),
        Phase::Numbered => true,
        Phase::Inside => true,
        Phase::After => matches!(
            w,
            Word::Draft(_) | Word::See(_) | Word::Other { kind: 3 | 5, .. }
        ),
        Phase::Closed => false,
    }
}

// The word at index i, after count entries: 10 where it may not stand.
fn step(s: Reading, numbers: &[u32], count: usize, i: usize, w: Word) -> Result<Reading, Refusal>
    requires { ReadyFor numbers.now s }
    ensures { turn_in result ≡ add_read numbers.now count s i (word_in w) }
{
    if !may_stand(s.phase, s.count == count, w) {
        return Err(Refusal::WordOutOfPlace);
    }
    s.step(numbers, i, w)
}

// The entry that the word at index i has made whole, otherwise the one before; s and t are the states around the word.
fn kept(
    before: Option<Entry>,
    s: Reading,
    t: Reading,
    coordinates: &[i64; NUMBERS],
    i: usize,
    w: Word,
) -> Option<Entry>
    requires { s.part.filled ≤ most_numbers }
    ensures { result ≡ kept_read before s t coordinates.now i (word_in w) }
{
    if t.count <= s.count {
        return before;
    }
    let coordinates = first_numbers(coordinates, s.part.filled);
    Some(s.part.whole(t.form, coordinates, i, w))
}

// No word is left: the entry kept, or the one that may end here; none where a word is due.
fn last(entry: Option<Entry>, s: Reading, coordinates: &[i64; NUMBERS]) -> Option<Entry>
    requires { s.part.filled ≤ most_numbers }
    ensures { result ≡ last_read entry s coordinates.now }
{
    match s.phase {
        Phase::Outside => entry,
        Phase::After => {
            let coordinates = first_numbers(coordinates, s.part.filled);
            Some(s.part.entry(s.form, coordinates, None))
        }
        _ => None,
    }
}

// The entry of the words, or the refusal of the first word that cannot stand; 10 where a word is due. The index is the place of a refusal too.
fn read_words(bytes: &[u8], numbers: &[u32], count: usize) -> Result<Entry, Refused>
    requires { Earlier numbers.now count }
    ensures { (p : Earlier numbers.now count) → Read p.entries (add_words (length p.entries) (outside p.entries) 0 (words_of bytes.now)) result }
{
    let mut entry = None;
    let mut coordinates = [0; NUMBERS];
    let mut s = start(count);
    let n = bytes.len() / 4;
    for i in 0..n {
        let w = decode(word_at(bytes, i));
        let t = match step(s, numbers, count, i, w) {
            Ok(t) => t,
            Err(refusal) => return Err(Refused { refusal, place: i }),
        };
        entry = kept(entry, s, t, &coordinates, i, w);
        store(&mut coordinates, s.part.filled, w);
        s = t;
    }
    last(entry, s, &coordinates).ok_or(Refused {
        refusal: Refusal::WordOutOfPlace,
        place: n,
    })
}

// Reads the bytes of one entry after the entries with these numbers.
pub fn read_addition(bytes: &[u8], numbers: &[u32], count: usize) -> Result<Entry, Refused>
    requires { Earlier numbers.now count }
    ensures outcome { (p : Earlier numbers.now count) → addition_in p.entries result ≡ addition p.entries bytes.now }
    ensures stored { EntryStored result }
{
    if bytes.len() % 4 != 0 {
        return Err(Refused {
            refusal: Refusal::PartOfAWord,
            place: 0,
        });
    }
    let e = read_words(bytes, numbers, count)?;
    if dependent(&e) {
        return Err(Refused {
            refusal: Refusal::Dependent,
            place: e.place,
        });
    }
    Ok(e)
}
