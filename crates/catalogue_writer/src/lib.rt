// Entries as words, and words as bytes of a lent output.
#![tactic(auto)]

ghost use Rattle.std.specs.Prelude.{◌≡◌, [], ◌∷◌, map, false, ◌+◌, ◌*◌, ◌^◌, ◌≤◌, ◌<◌, nat_abs, length};
ghost use Rattle.integers.specs.All.{All};
ghost use Rattle.integers.specs.Every.{any};
ghost use Rattle.input_checks.specs.Any.{beyond};
ghost use Rattle.catalogue_rules.specs.Word.{head, see, end, draft, head_number, head_size, encode};
ghost use Rattle.catalogue_rules.specs.Write.{head_words, coordinate_word, draft_words, see_words, entry_words, entries_words};
ghost use Rattle.catalogue_rules.specs.Catalogue.{head_length, accepted, most_entries};
ghost use Rattle.catalogue_rules.specs.Output.{output};
ghost use Rattle.catalogue_rules.specs.Form.{HeadFits, EntryFits, WellFormed};
ghost use Rattle.catalogue_rules.proofs.Laws.ReadEntries.{SeeFits};
ghost use Rattle.catalogue_records.specs.EntriesIn.{form_in, see_in, entry_in, output_in};
ghost use Rattle.catalogue_writer.specs.Loads.{basis_words};
ghost use Rattle.catalogue_writer.specs.Over.{over_words};
ghost use Rattle.catalogue_writer.specs.Puts.{HasRoom, Puts};

use catalogue_records::{Entry, Form, See};
use refusals::{Refusal, Refused};

// The word at index k of the bytes, lowest byte first.
pub fn put_word(out: &mut [u8], k: usize, w: u32)
    requires { k * 4 + 4 ≤ length out.old }
    ensures { out.new ≡ over_words out.old k (w ∷ []) }
{
    out[k * 4..k * 4 + 4].copy_from_slice(&w.to_le_bytes());
}

// Kind 1: number, d and m.
#[tactic(auto, unfolding(catalogue_rules::specs::Word::encode))]
pub fn head_word(number: u32, d: usize, m: usize) -> u32
    requires number_bound { number < 2 ^ 20 }
    requires d_bound { d < 16 }
    requires m_bound { m < 16 }
    ensures { result ≡ encode (head number d m) }
{
    268435456 + number * 256 + (d * 16 + m) as u32
}

// Kind 6: a head's number in the new form.
#[tactic(auto, unfolding(catalogue_rules::specs::Word::encode))]
pub fn head_number_word(number: u32) -> u32
    requires { number < 2 ^ 28 }
    ensures { result ≡ encode (head_number number) }
{
    1610612736 + number
}

// Kind 7: its d and m.
#[tactic(auto, unfolding(catalogue_rules::specs::Word::encode))]
pub fn head_size_word(d: usize, m: usize) -> u32
    requires d_bound { d < 16 }
    requires m_bound { m < 16 }
    ensures { result ≡ encode (head_size 0 d m) }
{
    1879048192 + (d * 16 + m) as u32
}

// Kind 2: the coordinate plus 20,000.
#[tactic(auto, unfolding(catalogue_rules::specs::Word::encode))]
pub fn coordinate_word(x: i64) -> u32
    requires { nat_abs x ≤ 20000 }
    ensures { result ≡ encode (coordinate_word x) }
{
    536870912 + (x + 20000) as u32
}

// Kind 3.
#[tactic(auto, unfolding(catalogue_rules::specs::Word::encode))]
pub fn see_word(number: u32) -> u32
    requires { number < 2 ^ 28 }
    ensures { result ≡ encode (see number) }
{
    805306368 + number
}

// Kind 4.
#[tactic(auto, unfolding(catalogue_rules::specs::Word::encode))]
pub fn end_word(count: usize) -> u32
    requires { count < 2 ^ 28 }
    ensures { result ≡ encode (end count) }
{
    1073741824 + count as u32
}

// Kind 5, with load 1.
#[tactic(auto, unfolding(catalogue_rules::specs::Word::encode))]
pub fn draft_word() -> u32
    ensures { result ≡ encode (draft 1) }
{
    1342177281
}

// Words of coordinates from index k on; the index after them.
fn put_coordinates(out: &mut [u8], k: usize, coordinates: &[i64]) -> usize
    requires near { any beyond coordinates.now ≡ false }
    requires room { HasRoom out.old k (map coordinate_word coordinates.now) }
    ensures { Puts out.old k (map coordinate_word coordinates.now) out.new result }
{
    for (j, x) in coordinates.iter().enumerate() {
        put_word(out, k + j, coordinate_word(*x));
    }
    k + coordinates.len()
}

// The head of an entry from index k on, in its form; the index after it.
fn put_head(out: &mut [u8], k: usize, e: &Entry) -> usize
    requires head_fits { HeadFits (entry_in e.now).head }
    requires room { HasRoom out.old k (head_words (entry_in e.now).head) }
    ensures { Puts out.old k (head_words (entry_in e.now).head) out.new result }
{
    match e.form {
        Form::Old => {
            put_word(out, k, head_word(e.number, e.d, e.m));
            k + 1
        }
        Form::New => {
            put_word(out, k, head_number_word(e.number));
            put_word(out, k + 1, head_size_word(e.d, e.m));
            k + 2
        }
    }
}

// The head and the coordinates of an entry from index k on; the index after them.
fn put_basis(out: &mut [u8], k: usize, e: &Entry) -> usize
    requires entry_fits { EntryFits (entry_in e.now) }
    requires room { HasRoom out.old k (basis_words (entry_in e.now)) }
    ensures { Puts out.old k (basis_words (entry_in e.now)) out.new result }
{
    let at = put_head(out, k, e);
    put_coordinates(out, at, &e.coordinates[..e.d * e.m])
}

// The mark, if it is a draft, at index k; the index after it.
fn put_draft(out: &mut [u8], k: usize, marked: bool) -> usize
    requires { HasRoom out.old k (draft_words marked) }
    ensures { Puts out.old k (draft_words marked) out.new result }
{
    if !marked {
        return k;
    }
    put_word(out, k, draft_word());
    k + 1
}

// The see word, if there is one, at index k; the index after it.
fn put_see(out: &mut [u8], k: usize, see: Option<See>) -> usize
    requires see_fits { SeeFits (see_in see) }
    requires room { HasRoom out.old k (see_words (see_in see)) }
    ensures { Puts out.old k (see_words (see_in see)) out.new result }
{
    match see {
        Some(see) => {
            put_word(out, k, see_word(see.number));
            k + 1
        }
        None => k,
    }
}

// An entry from index k on; the index after it.
fn put_entry(out: &mut [u8], k: usize, e: &Entry) -> usize
    requires entry_fits { EntryFits (entry_in e.now) }
    requires see_fits { SeeFits (entry_in e.now).see }
    requires room { HasRoom out.old k (entry_words (entry_in e.now)) }
    ensures { Puts out.old k (entry_words (entry_in e.now)) out.new result }
{
    let n = put_basis(out, k, e);
    let s = put_draft(out, n, e.draft);
    put_see(out, s, e.see)
}

// How many words a head takes.
fn head_length(form: Form) -> usize
    ensures { result ≡ head_length (form_in form) }
{
    match form {
        Form::Old => 1,
        Form::New => 2,
    }
}

// How many words an entry takes.
fn count_entry(e: &Entry) -> usize
    requires { EntryFits (entry_in e.now) }
    ensures { result ≡ length (entry_words (entry_in e.now)) }
{
    head_length(e.form) + e.d * e.m + usize::from(e.draft) + usize::from(e.see.is_some())
}

// How many words the entries take.
fn count_words(entries: &[Entry]) -> usize
    requires entries_few { length entries.now ≤ most_entries }
    requires all { All EntryFits (map entry_in entries.now) }
    ensures { result ≡ length (entries_words (map entry_in entries.now)) }
{
    let mut n = 0;
    for e in entries {
        n += count_entry(e);
    }
    n
}

// The entries from the start on; the index after them.
fn put_entries(entries: &[Entry], out: &mut [u8]) -> usize
    requires all { All EntryFits (map entry_in entries.now) }
    requires all_2 { All (λ e. SeeFits e.see) (map entry_in entries.now) }
    requires room { HasRoom out.old 0 (entries_words (map entry_in entries.now)) }
    ensures { Puts out.old 0 (entries_words (map entry_in entries.now)) out.new result }
{
    let mut n = 0;
    for e in entries {
        n = put_entry(out, n, e);
    }
    n
}

// Writes the entries to the lent output, which stays as it is when it is too short for them; how many bytes were written.
pub fn write_entries(entries: &[Entry], out: &mut [u8]) -> Result<usize, Refused>
    requires { WellFormed (map entry_in entries.now) }
    ensures { output_in result out.new ≡ output (accepted (map entry_in entries.now)) out.old }
{
    let n = count_words(entries) * 4 + 4;
    if out.len() < n {
        return Err(Refused {
            refusal: Refusal::OutputTooShort,
            place: 0,
        });
    }
    let k = put_entries(entries, out);
    put_word(out, k, end_word(entries.len()));
    Ok(n)
}
