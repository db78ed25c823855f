// What is kept of an entry and what it was read as: its vectors in 16 bits and back, and the places of its words.
ghost use Rattle.std.specs.Prelude.{◌≡◌, map, ℕ, ◌≤◌, length};
ghost use Rattle.integers.specs.Filled.{filled};
ghost use Rattle.integers.specs.Size.{Within};
ghost use Rattle.lattices.specs.Vector.{nth};
ghost use Rattle.catalogue_rules.specs.Catalogue.{most_entries};
ghost use Rattle.merges.specs.Rows.{see_place_at, after_word};
ghost use Rattle.catalogue_records.specs.EntriesIn.{entry_in};
ghost use Rattle.fold_rules.specs.Fold.{same_lattice};
ghost use Rattle.fold_rules.proofs.Laws.SameLattice.{Sound};
ghost use Rattle.lattice_membership.specs.Known.{KnownChoice};
ghost use Rattle.catalogue_standing.specs.ReducedEntry.{reduced_entry};
ghost use Rattle.catalogue_standing.specs.SameLattice.{LatticeOf};
ghost use Rattle.merges.specs.Stored.{named_in, stored_word, item_in, entry_from, item_of};

use super::{Item, Vectors};
use catalogue_records::{Catalogue, Entry, Form, NUMBERS, See};
use catalogue_standing::standing_entry::same_entry;
use lattice_membership::Lattice;

// No coordinate is over 20,000 in size.
fn narrow(x: i64) -> i16
    requires { Within 20000 x }
    ensures { result ≡ x }
{
    x as i16
}

// Number by number, as the library's `map` would hand the array over.
pub(crate) fn narrowed(numbers: [i64; NUMBERS]) -> [i16; NUMBERS]
    requires { (i : ℕ) → Within 20000 (nth numbers i) }
    ensures { result ≡ numbers }
{
    let mut out = [0i16; NUMBERS];
    for i in 0..NUMBERS {
        out[i] = narrow(numbers[i]);
    }
    out
}

pub(crate) fn widened(numbers: [i16; NUMBERS]) -> [i64; NUMBERS]
    ensures { result ≡ numbers }
{
    let mut out = [0i64; NUMBERS];
    for i in 0..NUMBERS {
        out[i] = i64::from(numbers[i]);
    }
    out
}

// The index of an entry's see word, or after the entry, its head being at this place: two words of a head, the coordinates, the mark of a draft.
pub(crate) fn see_place(place: usize, d: usize, m: usize, draft: bool) -> usize
    requires { (place ≤ 9472) × ((d ≤ 4) × (m ≤ 8)) }
    ensures { result ≡ see_place_at place d m draft }
{
    place + 2 + d * m + draft as usize
}

// The index after an entry.
pub(crate) fn after(at: usize, see: Option<u32>) -> usize
    requires { at ≤ 9600 }
    ensures { result ≡ after_word at see }
{
    at + see.is_some() as usize
}

// The number that a see word names.
fn named(see: Option<See>) -> Option<u32>
    ensures { result ≡ named_in see }
{
    Some(see?.number)
}

// The see word that names a number, at this place.
fn word(see: Option<u32>, place: usize) -> Option<See>
    ensures { result ≡ stored_word place see }
{
    Some(See {
        number: see?,
        place,
    })
}

// The entry that was kept, its head and its see word being at these places.
pub(crate) fn entry(i: &Item, place: usize, past: usize) -> Entry
    ensures { result ≡ entry_from i.now place past }
{
    Entry {
        form: Form::New,
        number: i.number,
        d: i.vectors.d,
        m: i.vectors.m,
        place,
        draft: i.draft,
        see: word(i.see, past),
        coordinates: widened(i.vectors.coordinates),
    }
}

// What is kept of an entry that was read.
pub(crate) fn item(e: &Entry, shortest: i64, first: usize) -> Item
    requires { (i : ℕ) → Within 20000 (nth e.now.coordinates i) }
    ensures { result ≡ item_of e.now shortest first }
{
    Item {
        number: e.number,
        draft: e.draft,
        see: named(e.see),
        vectors: Vectors {
            d: e.d,
            m: e.m,
            coordinates: narrowed(e.coordinates),
        },
        shortest,
        first,
    }
}

// The numbers of the entries, then zeros.
pub(crate) fn numbers(items: &[Item]) -> [u32; Catalogue::MOST_ENTRIES]
    requires { length items.now ≤ most_entries }
    ensures { result ≡ filled 0 most_entries (map (λ i. i.number) items.now) }
{
    let mut numbers = [0; Catalogue::MOST_ENTRIES];
    for (k, i) in items.iter().enumerate() {
        numbers[k] = i.number;
    }
    numbers
}

// Whether an entry that was kept is of the lattice of e, which is given.
pub(crate) fn same(i: &Item, e: &Entry, l: &Lattice) -> bool
    requires sound { (Sound (item_in i.now)) × (Sound (entry_in e.now)) }
    requires lattice_of { LatticeOf (reduced_entry (entry_in e.now)) l.now }
    requires chosen { KnownChoice l.now }
    ensures { result ≡ same_lattice (item_in i.now) (entry_in e.now) }
{
    same_entry(&entry(i, 0, 0), e, l)
}
