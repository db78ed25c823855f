// The standing entry of one entry, found without those of the others: the first before it of the same lattice, else itself.
ghost use Rattle.std.specs.Prelude.{◌≡◌, map, ℕ, ◌<◌, length};
ghost use Rattle.lattices.specs.Answer.{padded};
ghost use Rattle.lattices.specs.Refusal.{most_coordinates};
ghost use Rattle.lattice_membership.specs.Known.{KnownChoice};
ghost use Rattle.catalogue_rules.specs.Form.{EntryFits};
ghost use Rattle.catalogue_records.specs.EntriesIn.{entry_in};
ghost use Rattle.catalogue_records.specs.Entries.{beyond, entry_at};
ghost use Rattle.fold_rules.specs.Fold.{same_lattice};
ghost use Rattle.fold_rules.proofs.Laws.SameLattice.{Sound};
ghost use Rattle.catalogue_standing.specs.ReducedEntry.{reduced_entry};
ghost use Rattle.catalogue_standing.specs.SameLattice.{LatticeOf};
ghost use Rattle.catalogue_standing.specs.Places.{FirstFound};
ghost use Rattle.catalogue_standing.specs.Standing.{StandsAt};
ghost use Rattle.catalogue_standing.specs.OneEntry.{generates_at, marked_of, searched};
ghost use Rattle.catalogue_standing.specs.ReducedEntries.{WasRead};

use super::entry_lattices::lattice_of;
use catalogue_records::Entry;
use lattice_membership::{Lattice, holds_all, same_minor};

// Whether the vectors of an entry, as they were read, generate a lattice of as many: it holds them, and their minor at its choice of
// coordinates has the size of its own.
fn generates(e: &Entry, l: &Lattice) -> bool
    requires entry_fits { EntryFits (entry_in e.now) }
    requires chosen { KnownChoice l.now }
    requires d_value { l.now.d ≡ e.now.d }
    ensures { (k : KnownChoice l.now) → result ≡ generates_at l.now k.known.index (map (padded most_coordinates) (entry_in e.now).vectors) }
{
    let vectors = input_checks::basis(&e.coordinates[..e.d * e.m], e.d, e.m);
    holds_all(l, &vectors, e.d) && same_minor(l, &vectors)
}

// Whether f is of the lattice of e, which is given: f is not reduced.
pub fn same_entry(f: &Entry, e: &Entry, l: &Lattice) -> bool
    requires sound { (Sound (entry_in f.now)) × (Sound (entry_in e.now)) }
    requires lattice_of { LatticeOf (reduced_entry (entry_in e.now)) l.now }
    requires chosen { KnownChoice l.now }
    ensures { result ≡ same_lattice (entry_in f.now) (entry_in e.now) }
{
    if f.m != e.m {
        return false;
    }
    if f.d != e.d {
        return false;
    }
    generates(f, l)
}

// The first draft, or the first that is none, among some entries that is of the lattice of e, which is given.
fn first_marked(entries: &[Entry], draft: bool, e: &Entry, l: &Lattice) -> Option<usize>
    requires sound { ((j : ℕ) → j < length entries.now → Sound (entry_in (entry_at entries.now j))) × (Sound (entry_in e.now)) }
    requires lattice_of { LatticeOf (reduced_entry (entry_in e.now)) l.now }
    requires chosen { KnownChoice l.now }
    ensures { FirstFound (λ j. marked_of draft (entry_in e.now) (entry_in (entry_at entries.now j))) (length entries.now) result }
{
    for (j, f) in entries.iter().enumerate() {
        if f.draft == draft && same_entry(f, e, l) {
            return Some(j);
        }
    }
    None
}

// How many entries are looked at for one that is no draft: of a draft all, else those before it.
fn searched(draft: bool, k: usize, count: usize) -> usize
    ensures { result ≡ searched draft k count }
{
    if draft { count } else { k }
}

// The place of the standing entry of entry k: the first of its lattice that is no draft, else the first draft; no entry is tested twice.
pub fn standing_place(entries: &[Entry], k: usize) -> usize
    requires was_read { WasRead entries.now }
    requires k_lt_len { k < length entries.now }
    ensures { StandsAt (map entry_in entries.now) (entry_in beyond) k result }
{
    let e = &entries[k];
    let l = lattice_of(e);
    let n = searched(e.draft, k, entries.len());
    if let Some(j) = first_marked(&entries[..n], false, e, &l) {
        return j;
    }
    if !e.draft {
        return k;
    }
    first_marked(&entries[..k], true, e, &l).unwrap_or(k)
}
