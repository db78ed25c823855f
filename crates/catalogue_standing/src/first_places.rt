// The closed list, its first step: for each entry the place of the first entry of its lattice. Entries that follow do not change it.
ghost use Rattle.std.specs.Prelude.{ℕ, ◌≤◌, ◌<◌, length, get_or};
ghost use Rattle.catalogue_standing.specs.SameLattice.{FairLattice, no_lattice, lefts_in};
ghost use Rattle.catalogue_standing.specs.Places.{First, first_alike, Firsts};
ghost use Rattle.catalogue_rules.specs.Catalogue.{most_entries};

use super::same_lattice::same;
use catalogue_records::Catalogue;
use lattice_membership::Lattice;

// The first place before k that is the first of its lattice and of that of entry k, else k itself. Places are compared, so they are counted.
fn first_of(list: &[Lattice], firsts: &[usize], k: usize) -> usize
    requires k_lt_list_len { k < length list.now }
    requires k_in_bounds { k ≤ length firsts.now }
    requires by_index { (j : ℕ) → j < length list.now → FairLattice (get_or list.now j no_lattice) }
    ensures { First (first_alike (lefts_in list.now) firsts.now k) k result }
{
    for j in 0..k {
        if firsts[j] == j && same(&list[j], &list[k]) {
            return j;
        }
    }
    k
}

// Of each entry.
pub(crate) fn firsts(list: &[Lattice]) -> [usize; Catalogue::MOST_ENTRIES]
    requires list_len { length list.now ≤ most_entries }
    requires by_index { (j : ℕ) → j < length list.now → FairLattice (get_or list.now j no_lattice) }
    ensures { Firsts (lefts_in list.now) (length list.now) result }
{
    let mut firsts = [0; Catalogue::MOST_ENTRIES];
    for k in 0..list.len() {
        firsts[k] = first_of(list, &firsts, k);
    }
    firsts
}
