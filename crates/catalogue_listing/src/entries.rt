// The entries of a listing: the counts, a line for each entry, and the vectors under those that stand.
ghost use Rattle.std.specs.Prelude.{◌≡◌, ◌+◌, ◌≤◌, length, map};
ghost use Rattle.fold_rules.specs.Fold.{closed_list};
ghost use Rattle.fold_rules.specs.Listing.{vector_lines, entry_lines, catalogue_lines};
ghost use Rattle.catalogue_records.specs.EntriesIn.{entry_in};
ghost use Rattle.catalogue_records.specs.Entries.{beyond};
ghost use Rattle.lattice_membership.specs.Known.{left_in};
ghost use Rattle.catalogue_standing.specs.Standing.{StandingPlaces};
ghost use Rattle.catalogue_standing.specs.ReducedEntries.{WasRead, HoldReduced};
ghost use Rattle.catalogue_fold.specs.Spread.{Full};
ghost use Rattle.text_output.specs.Puts.{Puts};
ghost use Rattle.catalogue_listing.specs.Counts.{own_places};
ghost use Rattle.catalogue_listing.specs.Entries.{lead_of, vectors_of, entry_text};

use super::lines;
use catalogue_fold::printing::way_of;
use catalogue_records::{Entry, See};
use catalogue_standing::entry_lattices::lattices_of;
use catalogue_standing::standing_places::closed;
use lattice_membership::Lattice;

// The reduced vectors, a line each.
fn put_vectors(out: &mut [u8], at: usize, l: &Lattice) -> usize
    requires full { Full (left_in l.now) }
    requires l_in_bounds { at + length (vector_lines (vectors_of (left_in l.now))) ≤ length out.old }
    ensures { Puts (vector_lines (vectors_of (left_in l.now))) out.old at out.new result }
{
    let mut n = at;
    for v in &l.vectors[..l.d] {
        n = lines::put_vector(out, n, v, l.m);
    }
    n
}

// An entry's line, and its vectors if it stands.
fn put_entry(out: &mut [u8], at: usize, number: u32, standing: u32, lead: u32, l: &Lattice) -> usize
    requires full { Full (left_in l.now) }
    requires l_in_bounds { at + length (entry_text number standing lead l.now.passes (vectors_of (left_in l.now))) ≤ length out.old }
    ensures { Puts (entry_text number standing lead l.now.passes (vectors_of (left_in l.now))) out.old at out.new result }
{
    let n = lines::put_entry_line(
        out,
        at,
        u64::from(number),
        u64::from(standing),
        u64::from(lead),
        l.passes,
    );
    if number != standing {
        return n;
    }
    put_vectors(out, n, l)
}

// The number of a word, 0 for none.
fn lead(see: Option<See>) -> u32
    ensures { result ≡ lead_of see }
{
    match see {
        Some(see) => see.number,
        None => 0,
    }
}

// All entries. The list of standing entries is closed before any see word is led.
fn put_entries(
    out: &mut [u8],
    at: usize,
    entries: &[Entry],
    list: &[Lattice],
    standing: &[usize],
) -> usize
    requires was_read { WasRead entries.now }
    requires hold_reduced { HoldReduced entries.now (length entries.now) list.now }
    requires count_in_bounds { length entries.now ≤ length standing.now }
    requires standing_places { StandingPlaces (map entry_in entries.now) (entry_in beyond) standing.now }
    requires entries_in_bounds { at + length (entry_lines (closed_list (map entry_in entries.now)) (closed_list (map entry_in entries.now))) ≤ length out.old }
    ensures { Puts (entry_lines (closed_list (map entry_in entries.now)) (closed_list (map entry_in entries.now))) out.old at out.new result }
{
    let numbers = catalogue_records::numbers(entries);
    let numbers = &numbers[..entries.len()];
    let mut n = at;
    for (k, e) in entries.iter().enumerate() {
        let own = numbers[standing[k]];
        let w = way_of(e, own, numbers, standing);
        n = put_entry(out, n, e.number, own, lead(w), &list[k]);
    }
    n
}

// How many entries stand: those whose place is their own.
fn count_standing(standing: &[usize]) -> usize
    ensures { result ≡ own_places standing.now (length standing.now) }
{
    let mut n = 0;
    for (k, place) in standing.iter().enumerate() {
        if *place == k {
            n += 1;
        }
    }
    n
}

// The listing of entries that were read.
pub(crate) fn put_catalogue(out: &mut [u8], entries: &[Entry]) -> usize
    requires was_read { WasRead entries.now }
    requires entries_in_bounds { length (catalogue_lines (closed_list (map entry_in entries.now))) ≤ length out.old }
    ensures { Puts (catalogue_lines (closed_list (map entry_in entries.now))) out.old 0 out.new result }
{
    let list = lattices_of(entries);
    let standing = closed(entries, &list);
    let own = count_standing(&standing[..entries.len()]);
    let n = lines::put_counts(out, 0, entries.len() as u64, own as u64);
    put_entries(out, n, entries, &list, &standing)
}
