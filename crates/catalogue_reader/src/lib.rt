// A catalogue read out of bytes: the row "whole file", the words one after the other, and the rows "after reading".
#![tactic(auto)]

ghost use Rattle.std.specs.Prelude.{◌≡◌, List, [], ◌≤◌, length, map};
ghost use Rattle.integers.specs.All.{All};
ghost use Rattle.integers.specs.First.{first_given};
ghost use Rattle.catalogue_rules.specs.Catalogue as definition;
ghost use Rattle.catalogue_rules.specs.Catalogue.{Outcome, refused, most_entries, most_bytes};
ghost use Rattle.catalogue_rules.specs.Word.{words_of};
ghost use Rattle.catalogue_rules.specs.Read.{checked, opens_in, form_shown, file_rows, read_all, read, outside, read_words, dependent_at, lost_at};
ghost use Rattle.catalogue_rules.specs.Moving.{read_to_move};
ghost use Rattle.catalogue_rules.specs.Form.{EntryFits};
ghost use Rattle.catalogue_records.specs.Catalogues.{StoredIn};
ghost use Rattle.catalogue_records.specs.EntriesIn.{form_in, option_in, entry_in, outcome_by, outcome_in};
ghost use Rattle.catalogue_steps.specs.Words.{word_in};
ghost use Rattle.catalogue_reader.specs.Store.{noted, Space};

use catalogue_records::{Catalogue, Entry, Form, NUMBERS};
use catalogue_steps::entries::dependent;
use catalogue_steps::parts::{first_numbers, store};
use catalogue_steps::reading::{Phase, Reading};
use catalogue_steps::words::{Word, decode, word_at};
use refusals::{Refusal, Refused};

// A head's number is noted after those of the entries before it.
fn note(numbers: &mut [u32; Catalogue::MOST_ENTRIES], count: usize, w: Word)
    requires { Space count (word_in w) }
    ensures { numbers.new ≡ noted numbers.old count (word_in w) }
{
    match w {
        Word::Head { number, .. } => numbers[count] = number,
        Word::HeadNumber(number) => numbers[count] = number,
        _ => {}
    }
}

// The entries of the words, or the refusal of the first word that cannot stand. Entries, numbers of heads and coordinates are stored in place.
// The index is the place of a refusal too; with `map_err` and `?` its arm is not proved.
fn read_words(bytes: &[u8]) -> Result<Catalogue, Refused>
    ensures outcome { outcome_in result ≡ read_words (outside []) 0 (words_of bytes.now) }
    ensures stored { StoredIn result }
{
    let mut entries = [Entry::empty(); Catalogue::MOST_ENTRIES];
    let mut numbers = [0; Catalogue::MOST_ENTRIES];
    let mut coordinates = [0; NUMBERS];
    let mut s = Reading::start();
    let n = bytes.len() / 4;
    for i in 0..n {
        let w = decode(word_at(bytes, i));
        let t = match s.step(&numbers, i, w) {
            Ok(t) => t,
            Err(refusal) => return Err(Refused { refusal, place: i }),
        };
        let part = s.part;
        if s.count < t.count {
            entries[s.count] = part.whole(t.form, first_numbers(&coordinates, part.filled), i, w);
        }
        store(&mut coordinates, part.filled, w);
        note(&mut numbers, t.count, w);
        s = t;
    }
    if s.phase != Phase::Closed {
        return Err(Refused {
            refusal: Refusal::WordOutOfPlace,
            place: n,
        });
    }
    Ok(Catalogue {
        count: s.count,
        entries,
    })
}

// Row "after reading", 5: the head of the first dependent entry.
fn first_dependent(entries: &[Entry]) -> Option<usize>
    requires { All EntryFits (map entry_in entries.now) }
    ensures { option_in result ≡ first_given dependent_at (map entry_in entries.now) }
{
    for e in entries {
        if dependent(e) {
            return Some(e.place);
        }
    }
    None
}

// The place of an entry's see word, if it names none of these numbers.
fn lost(e: &Entry, numbers: &[u32]) -> Option<usize>
    ensures { (es : List definition.Entry) → numbers.now ≡ map (λ e. e.head.number) es → option_in result ≡ lost_at es (entry_in e.now) }
{
    let see = e.see?;
    if numbers.contains(&see.number) {
        return None;
    }
    Some(see.place)
}

// Row "after reading", 12: the first see word that names no entry. With `find_map` it is proved safe, but not which it is.
pub fn first_lost(entries: &[Entry]) -> Option<usize>
    requires { length entries.now ≤ most_entries }
    ensures { option_in result ≡ first_given (lost_at (map entry_in entries.now)) (map entry_in entries.now) }
{
    let numbers = catalogue_records::numbers(entries);
    let numbers = &numbers[..entries.len()];
    for e in entries {
        if let Some(place) = lost(e, numbers) {
            return Some(place);
        }
    }
    None
}

// The words of a file and the rows "after reading".
fn read_all(bytes: &[u8]) -> Result<Catalogue, Refused>
    ensures outcome { outcome_in result ≡ read_all bytes.now }
    ensures stored { StoredIn result }
{
    let c = read_words(bytes)?;
    if let Some(place) = first_dependent(c.list()) {
        return Err(Refused {
            refusal: Refusal::Dependent,
            place,
        });
    }
    if let Some(place) = first_lost(c.list()) {
        return Err(Refused {
            refusal: Refusal::SeesNoEntry,
            place,
        });
    }
    Ok(c)
}

// Whether the first word is that of a head in this form.
fn opens_in(form: Form, bytes: &[u8]) -> bool
    ensures { result ≡ opens_in (form_in form) (words_of bytes.now) }
{
    4 <= bytes.len() && decode(word_at(bytes, 0)).opens(form)
}

// How many bytes the file may have: more when the first word is the number of a head in the new form.
fn most_bytes(bytes: &[u8]) -> usize
    ensures { result ≡ most_bytes (form_shown (words_of bytes.now)) }
{
    if opens_in(Form::New, bytes) {
        return Catalogue::MOST_BYTES;
    }
    Catalogue::MOST_OLD_BYTES
}

// Row "whole file".
fn file(bytes: &[u8]) -> Result<(), Refused>
    ensures { (o : Outcome) → outcome_by (λ u. o) result ≡ checked (λ n. refused n 0) (file_rows bytes.now) o }
{
    if bytes.len() % 4 != 0 {
        return Err(Refused {
            refusal: Refusal::PartOfAWord,
            place: 0,
        });
    }
    if most_bytes(bytes) < bytes.len() {
        return Err(Refused {
            refusal: Refusal::TooManyBytes,
            place: 0,
        });
    }
    Ok(())
}

// Reads a catalogue.
pub fn read(bytes: &[u8]) -> Result<Catalogue, Refused>
    ensures outcome { outcome_in result ≡ read bytes.now }
    ensures stored { StoredIn result }
{
    file(bytes)?;
    read_all(bytes)
}

// Reads a catalogue that is to be written in this form: 10 for one that opens with a head in it, before any other word is judged.
pub fn read_to_move(form: Form, bytes: &[u8]) -> Result<Catalogue, Refused>
    ensures outcome { outcome_in result ≡ read_to_move (form_in form) bytes.now }
    ensures stored { StoredIn result }
{
    file(bytes)?;
    if opens_in(form, bytes) {
        return Err(Refused {
            refusal: Refusal::WordOutOfPlace,
            place: 0,
        });
    }
    read_all(bytes)
}
