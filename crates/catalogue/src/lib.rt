// The services on catalogues: reading, writing out, the moves between the forms, fold, lookup, and what separates two entries.
#![tactic(auto)]

ghost use Rattle.std.specs.Prelude.{◌≡◌, ◌==◌, map, position};
ghost use Rattle.catalogue_rules.specs.Read.{read};
ghost use Rattle.catalogue_rules.specs.Catalogue.{old, new, accepted};
ghost use Rattle.catalogue_rules.specs.Output.{output};
ghost use Rattle.catalogue_rules.specs.Moving.{move_of};
ghost use Rattle.catalogue_records.specs.Catalogues.{StoredIn};
ghost use Rattle.catalogue_records.specs.EntriesIn.{form_in, entry_in, outcome_in, output_in};
ghost use Rattle.catalogue_standing.specs.ReducedEntries.{WasRead};
ghost use Rattle.fold_rules.specs.Fold.{folded};
ghost use Rattle.fold_rules.specs.Services.{fold_of, lookup_of};
ghost use Rattle.separation_rules.specs.Separation.{separated_in, separate_of};
ghost use Rattle.separation_answers.specs.Said.{said_by};
ghost use Rattle.catalogue.specs.Finding.{looked_by, NumberedAt};

use catalogue_records::{Catalogue, Entry, Form};
use catalogue_standing::entry_lattices::lattices_of;
use catalogue_standing::standing_entry::standing_place;
use catalogue_standing::standing_places::closed;
use catalogue_writer::write_entries;
use refusals::{Refusal, Refused};
use separation_answers::Separation;

// Reads a catalogue.
pub fn read(bytes: &[u8]) -> Result<Catalogue, Refused>
    ensures outcome { outcome_in result ≡ read bytes.now }
    ensures stored { StoredIn result }
{
    catalogue_reader::read(bytes)
}

// Reads a catalogue and writes its entries, unfolded, to the lent output.
pub fn write_out(bytes: &[u8], out: &mut [u8]) -> Result<usize, Refused>
    ensures { output_in result out.new ≡ output (read bytes.now) out.old }
{
    let c = read(bytes)?;
    write_entries(c.list(), out)
}

// Reads a catalogue of the other form and writes it in this one.
fn moved(form: Form, bytes: &[u8], out: &mut [u8]) -> Result<usize, Refused>
    ensures { output_in result out.new ≡ move_of (form_in form) bytes.now out.old }
{
    let c = catalogue_reader::read_to_move(form, bytes)?;
    let entries = c.list();
    if let Some(place) = catalogue_moves::first_over(entries, form) {
        return Err(Refused {
            refusal: Refusal::NumberTooLarge,
            place,
        });
    }
    let m = catalogue_moves::in_form(entries, form);
    write_entries(m.list(), out)
}

// A catalogue of the old form, written in the new form to the lent output.
pub fn new_form(bytes: &[u8], out: &mut [u8]) -> Result<usize, Refused>
    ensures { output_in result out.new ≡ move_of new bytes.now out.old }
{
    moved(Form::New, bytes, out)
}

// A catalogue of the new form, written in the old form to the lent output; 19 where a number is too large for it.
pub fn old_form(bytes: &[u8], out: &mut [u8]) -> Result<usize, Refused>
    ensures { output_in result out.new ≡ move_of old bytes.now out.old }
{
    moved(Form::Old, bytes, out)
}

// The place of the entry with this number.
fn place_of(entries: &[Entry], number: u32) -> Option<usize>
    ensures { result ≡ position (λ e. e.number == number) entries.now }
{
    entries.iter().position(|e| e.number == number)
}

// The same; 17 where no entry has it.
fn numbered(entries: &[Entry], number: u32) -> Result<usize, Refused>
    ensures { NumberedAt (map (λ e. e.number) entries.now) number result }
{
    place_of(entries, number).ok_or(Refused {
        refusal: Refusal::NoSuchEntry,
        place: 0,
    })
}

// The standing number of the entry with this number; the catalogue's own refusals first, then 17 where no entry has it.
pub fn lookup(bytes: &[u8], number: u32) -> Result<u32, Refused>
    ensures { looked_by result ≡ lookup_of bytes.now number }
{
    let c = read(bytes)?;
    let entries = c.list();
    let k = numbered(entries, number)?;
    let s = standing_place(entries, k);
    Ok(entries[s].number)
}

// The fold of entries that were read, written to the lent output.
pub fn fold_read(entries: &[Entry], out: &mut [u8]) -> Result<usize, Refused>
    requires { WasRead entries.now }
    ensures { output_in result out.new ≡ output (accepted (folded (map entry_in entries.now))) out.old }
{
    let list = lattices_of(entries);
    let standing = closed(entries, &list);
    let f = catalogue_fold::folded(entries, &list, &standing);
    write_entries(f.list(), out)
}

// The folded catalogue, written to the lent output.
pub fn fold(bytes: &[u8], out: &mut [u8]) -> Result<usize, Refused>
    ensures { output_in result out.new ≡ fold_of bytes.now out.old }
{
    let c = read(bytes)?;
    fold_read(c.list(), out)
}

// What separates two of the entries that were read; 17 where no entry has one of the numbers.
pub fn separate_read(entries: &[Entry], first: u32, second: u32) -> Result<Separation, Refused>
    requires { WasRead entries.now }
    ensures { said_by result ≡ separated_in (accepted (map entry_in entries.now)) first second }
{
    let j = numbered(entries, first)?;
    let k = numbered(entries, second)?;
    Ok(catalogue_separation::separated(&entries[j], &entries[k]))
}

// What separates the entries with these numbers; the catalogue's own refusals first, then 17 where no entry has one of them.
pub fn separate(bytes: &[u8], first: u32, second: u32) -> Result<Separation, Refused>
    ensures { said_by result ≡ separate_of bytes.now first second }
{
    let c = read(bytes)?;
    separate_read(c.list(), first, second)
}
