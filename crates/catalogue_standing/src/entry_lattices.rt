// The lattice of an entry, and those of all entries of a catalogue: each entry is reduced once.
ghost use Rattle.std.specs.Prelude.{length};
ghost use Rattle.catalogue_records.specs.EntriesIn.{entry_in};
ghost use Rattle.fold_rules.proofs.Laws.SameLattice.{Sound};
ghost use Rattle.catalogue_standing.specs.ReducedEntry.{reduced_entry};
ghost use Rattle.catalogue_standing.specs.SameLattice.{LatticeOf};
ghost use Rattle.catalogue_standing.specs.ReducedEntries.{WasRead, HoldReduced};
ghost use Rattle.lattice_membership.specs.Known.{KnownChoice};

use catalogue_records::{Catalogue, Entry};
use lattice_membership::Lattice;

// Of an entry.
pub fn lattice_of(e: &Entry) -> Lattice
    requires { Sound (entry_in e.now) }
    ensures lattice { LatticeOf (reduced_entry (entry_in e.now)) result }
    ensures chosen { KnownChoice result }
{
    reduced_lattices::lattice(&e.coordinates[..e.d * e.m], e.d, e.m)
}

// Of all entries of a catalogue that was read.
pub fn lattices_of(entries: &[Entry]) -> [Lattice; Catalogue::MOST_ENTRIES]
    requires { WasRead entries.now }
    ensures { HoldReduced entries.now (length entries.now) result }
{
    let none = Lattice {
        d: 0,
        m: 0,
        vectors: [[0; row_operations::WIDTH]; 4],
        squares: [0; 4],
        passes: 0,
        choice: [0; row_operations::WIDTH],
        minor: 0,
        cofactors: [[0; 4]; 4],
    };
    let mut list = [none; Catalogue::MOST_ENTRIES];
    for (k, e) in entries.iter().enumerate() {
        list[k] = lattice_of(e);
    }
    list
}
