// Which see word each standing entry carries.
ghost use Rattle.std.specs.Prelude.{◌≡◌, map, ◌≤◌, length};
ghost use Rattle.catalogue_records.specs.EntriesIn.{entry_in};
ghost use Rattle.catalogue_records.specs.Entries.{beyond};
ghost use Rattle.catalogue_standing.specs.Standing.{StandingPlaces};
ghost use Rattle.catalogue_standing.specs.ReducedEntries.{WasRead};
ghost use Rattle.catalogue_fold.specs.Carrying.{considered, CarriedWays};

use super::printing::way_of;
use catalogue_records::{Catalogue, Entry, See};

// The earlier of two words, unless there is none; but that of the standing entry itself comes before the others.
fn considered(before: Option<See>, w: Option<See>, own: bool) -> Option<See>
    ensures { result ≡ considered before w own }
{
    if own { w.or(before) } else { before.or(w) }
}

// For the place of each standing entry the way of its own see word or, where that leads nowhere, of the first one, in file order, among the
// entries folded into it that leads to another standing entry. Each word is followed once.
pub(crate) fn carried_ways(
    entries: &[Entry],
    numbers: &[u32],
    standing: &[usize],
) -> [Option<See>; Catalogue::MOST_ENTRIES]
    requires was_read { WasRead entries.now }
    requires numbers_value { numbers.now ≡ map (λ e. e.number) entries.now }
    requires count_in_bounds { length entries.now ≤ length standing.now }
    requires standing_places { StandingPlaces (map entry_in entries.now) (entry_in beyond) standing.now }
    ensures { CarriedWays (map entry_in entries.now) (entry_in beyond) standing.now result }
{
    let mut ways = [None; Catalogue::MOST_ENTRIES];
    for (k, e) in entries.iter().enumerate() {
        let s = standing[k];
        let w = way_of(e, numbers[s], numbers, standing);
        ways[s] = considered(ways[s], w, k == s);
    }
    ways
}
