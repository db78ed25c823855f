// The text of a catalogue, an entry to a line: `number d m ; coordinates`, `; draft` where it is a draft, and `; see` where there is a see word. In
// the new form a line `new` stands before them.
#![tactic(auto)]

ghost use Rattle.std.specs.Prelude.{◌+◌, ◌≤◌, length, map};
ghost use Rattle.integers.specs.All.{All};
ghost use Rattle.catalogue_rules.specs.Form.{EntryFits};
ghost use Rattle.catalogue_rules.specs.Read.{form_of};
ghost use Rattle.catalogue_records.specs.EntriesIn.{entry_in};
ghost use Rattle.text_rules.specs.Text.{entry_text, form_text, text_of};
ghost use Rattle.text_output.specs.Puts.{Puts};
ghost use Rattle.text_decoding.specs.Parts.{head_text, draft_text, see_text};

use catalogue_records::{Entry, Form, See};

// What stands before the coordinates.
fn put_head(out: &mut [u8], at: usize, number: u64, d: u64, m: u64) -> usize
    requires { at + length (head_text number d m) ≤ length out.old }
    ensures { Puts (head_text number d m) out.old at out.new result }
{
    let first = text_output::put_decimal(out, at, number);
    let second = text_fields::put_number(out, first, d);
    let third = text_fields::put_number(out, second, m);
    text_output::put_bytes(out, third, b" ;")
}

// What follows them in a draft.
fn put_draft(out: &mut [u8], at: usize, draft: bool) -> usize
    requires { at + length (draft_text draft) ≤ length out.old }
    ensures { Puts (draft_text draft) out.old at out.new result }
{
    if draft {
        return text_output::put_bytes(out, at, b" ; draft");
    }
    at
}

// The see word if there is one.
fn put_see(out: &mut [u8], at: usize, see: Option<See>) -> usize
    requires { at + length (see_text see) ≤ length out.old }
    ensures { Puts (see_text see) out.old at out.new result }
{
    match see {
        Some(s) => {
            let k = text_output::put_bytes(out, at, b" ;");
            text_fields::put_number(out, k, u64::from(s.number))
        }
        None => at,
    }
}

// The line of an entry.
fn put_entry(out: &mut [u8], at: usize, e: &Entry) -> usize
    requires entry_fits { EntryFits (entry_in e.now) }
    requires e_in_bounds { at + length (entry_text (entry_in e.now)) ≤ length out.old }
    ensures { Puts (entry_text (entry_in e.now)) out.old at out.new result }
{
    let first = put_head(out, at, u64::from(e.number), e.d as u64, e.m as u64);
    let second = text_fields::put_coordinates(out, first, &e.coordinates[..e.d * e.m]);
    let third = put_draft(out, second, e.draft);
    let fourth = put_see(out, third, e.see);
    text_output::put_byte(out, fourth, b'\n')
}

// What stands before the entries: the line `new` where the first has the new form.
fn put_form(out: &mut [u8], entries: &[Entry]) -> usize
    requires { length (form_text (form_of (map entry_in entries.now))) ≤ length out.old }
    ensures { Puts (form_text (form_of (map entry_in entries.now))) out.old 0 out.new result }
{
    if entries.len() == 0 {
        return 0;
    }
    match entries[0].form {
        Form::Old => 0,
        Form::New => text_output::put_bytes(out, 0, b"new\n"),
    }
}

// The text of all entries.
pub fn put_entries(entries: &[Entry], out: &mut [u8]) -> usize
    requires all { All EntryFits (map entry_in entries.now) }
    requires entries_in_bounds { length (text_of (map entry_in entries.now)) ≤ length out.old }
    ensures { Puts (text_of (map entry_in entries.now)) out.old 0 out.new result }
{
    let mut n = put_form(out, entries);
    for e in entries {
        n = put_entry(out, n, e);
    }
    n
}
