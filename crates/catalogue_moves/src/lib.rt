// What a move between the forms does to entries: the first number that a form has no room for, and the entries with their heads in a form.
#![tactic(auto)]

ghost use Rattle.std.specs.Prelude.{◌≡◌, ◌≤◌, length, map};
ghost use Rattle.integers.specs.First.{first_given};
ghost use Rattle.catalogue_rules.specs.Catalogue.{most_number, most_entries};
ghost use Rattle.catalogue_rules.specs.Moving.{over_at};
ghost use Rattle.catalogue_records.specs.EntriesIn.{form_in, option_in, entry_in};
ghost use Rattle.catalogue_moves.specs.Moved.{stored_in, catalogue_in};

use catalogue_records::{Catalogue, Entry, Form};

// The largest number that the form has room for.
fn most_number(form: Form) -> u32
    ensures { result ≡ most_number (form_in form) }
{
    match form {
        Form::Old => Catalogue::MOST_OLD_NUMBER,
        Form::New => Catalogue::MOST_NUMBER,
    }
}

// The first head with a number that the form has no room for.
pub fn first_over(entries: &[Entry], form: Form) -> Option<usize>
    ensures { option_in result ≡ first_given (over_at (form_in form)) (map entry_in entries.now) }
{
    let most = most_number(form);
    for e in entries {
        if most < e.number {
            return Some(e.place);
        }
    }
    None
}

// An entry with its head in this form.
fn with_form(e: &Entry, form: Form) -> Entry
    ensures { result ≡ stored_in form e.now }
{
    Entry { form, ..*e }
}

// The entries with their heads in this form.
pub fn in_form(entries: &[Entry], form: Form) -> Catalogue
    requires { length entries.now ≤ most_entries }
    ensures { result ≡ catalogue_in form entries.now }
{
    let mut c = Catalogue::empty();
    for (k, e) in entries.iter().enumerate() {
        c.entries[k] = with_form(e, form);
    }
    c.count = entries.len();
    c
}
