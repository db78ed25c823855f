// The folded catalogue: the standing entries in file order, each as it is printed.
#![tactic(auto)]

ghost use Rattle.std.specs.Prelude.{◌≡◌, ◌≤◌, length, map};
ghost use Rattle.catalogue_records.specs.EntriesIn.{entry_in};
ghost use Rattle.catalogue_records.specs.Entries.{beyond};
ghost use Rattle.catalogue_standing.specs.Standing.{StandingPlaces};
ghost use Rattle.catalogue_standing.specs.ReducedEntries.{WasRead, HoldReduced};
ghost use Rattle.catalogue_fold.specs.Folding.{folded_of};

use carrying::carried_ways;
use catalogue_records::{Catalogue, Entry};
use lattice_membership::Lattice;
use printing::printed;

mod carrying;
pub mod printing;

// Of entries that were read; the list of standing entries is closed before any see word is followed.
pub fn folded(entries: &[Entry], list: &[Lattice], standing: &[usize]) -> Catalogue
    requires was_read { WasRead entries.now }
    requires hold_reduced { HoldReduced entries.now (length entries.now) list.now }
    requires count_in_bounds { length entries.now ≤ length standing.now }
    requires standing_places { StandingPlaces (map entry_in entries.now) (entry_in beyond) standing.now }
    ensures { result ≡ folded_of entries.now }
{
    let numbers = catalogue_records::numbers(entries);
    let ways = carried_ways(entries, &numbers[..entries.len()], standing);
    let mut folded = Catalogue::empty();
    for (k, e) in entries.iter().enumerate() {
        if standing[k] == k {
            folded.entries[folded.count] = printed(e, &list[k], ways[k]);
            folded.count += 1;
        }
    }
    folded
}
