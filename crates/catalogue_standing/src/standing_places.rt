// The closed list: its second step, which finds for each entry the place of its standing entry from the first entries of the lattices and the
// drafts and looks at no lattice; and both steps together.
ghost use Rattle.std.specs.Prelude.{◌≡◌, false, map, ℕ, ◌≤◌, ◌<◌, ◌==◌, position, length, get_or};
ghost use Rattle.integers.specs.Filled.{filled};
ghost use Rattle.catalogue_rules.specs.Catalogue.{most_entries};
ghost use Rattle.catalogue_records.specs.EntriesIn.{entry_in};
ghost use Rattle.catalogue_records.specs.Entries.{beyond};
ghost use Rattle.catalogue_standing.specs.Places.{FirstFound};
ghost use Rattle.catalogue_standing.specs.Standing.{StandingPlaces};
ghost use Rattle.catalogue_standing.specs.Standers.{checked_at, Stander, Standers};
ghost use Rattle.catalogue_standing.specs.ReducedEntries.{WasRead, HoldReduced};

use super::first_places::firsts;
use catalogue_records::{Catalogue, Entry};
use lattice_membership::Lattice;

// Which of the entries are drafts.
fn marks(entries: &[Entry]) -> [bool; Catalogue::MOST_ENTRIES]
    requires { length entries.now ≤ most_entries }
    ensures { result ≡ filled false most_entries (map (λ e. e.draft) entries.now) }
{
    let mut marks = [false; Catalogue::MOST_ENTRIES];
    for (k, e) in entries.iter().enumerate() {
        marks[k] = e.draft;
    }
    marks
}

// The place of the first entry that is no draft, of the lattice whose first entry is at place f. Two lists are read from f on.
fn checked_place(firsts: &[usize], marks: &[bool], f: usize) -> Option<usize>
    requires marks_len { length firsts.now ≤ length marks.now }
    requires by_index { (k : ℕ) → k < length firsts.now → get_or firsts.now k 0 ≤ k }
    requires f_lt_len { f < length firsts.now }
    ensures { FirstFound (checked_at firsts.now marks.now f) (length firsts.now) result }
{
    for j in f..firsts.len() {
        if firsts[j] == f && !marks[j] {
            return Some(j);
        }
    }
    None
}

// The place of the standing entry of the lattice whose first entry is at place f.
pub fn stander(firsts: &[usize], marks: &[bool], f: usize) -> usize
    requires marks_len { length firsts.now ≤ length marks.now }
    requires by_index { (k : ℕ) → k < length firsts.now → get_or firsts.now k 0 ≤ k }
    requires f_lt_len { f < length firsts.now }
    requires f_value { get_or firsts.now f 0 ≡ f }
    ensures { Stander firsts.now marks.now (length firsts.now) f result }
{
    checked_place(firsts, marks, f).unwrap_or(f)
}

// The places of the standing entries: for each lattice it is looked for once, at its first entry.
fn standers(firsts: &[usize], marks: &[bool]) -> [usize; Catalogue::MOST_ENTRIES]
    requires marks_len { length firsts.now ≤ length marks.now }
    requires by_index { (k : ℕ) → k < length firsts.now → get_or firsts.now k 0 ≤ k }
    requires firsts_len { length firsts.now ≤ most_entries }
    ensures { Standers firsts.now marks.now (length firsts.now) (length firsts.now) result }
{
    let mut standing = [0; Catalogue::MOST_ENTRIES];
    for (k, f) in firsts.iter().enumerate() {
        let s = if *f == k {
            stander(firsts, marks, k)
        } else {
            standing[*f]
        };
        standing[k] = s;
    }
    standing
}

// The closed list: the place of the standing entry of each entry of a catalogue that was read, whose lattices are given.
pub fn closed(entries: &[Entry], list: &[Lattice]) -> [usize; Catalogue::MOST_ENTRIES]
    requires was_read { WasRead entries.now }
    requires hold_reduced { HoldReduced entries.now (length entries.now) list.now }
    ensures standing_places { StandingPlaces (map entry_in entries.now) (entry_in beyond) result }
    ensures result_len { length result ≡ most_entries }
{
    let n = entries.len();
    let places = firsts(&list[..n]);
    let marks = marks(entries);
    standers(&places[..n], &marks[..n])
}

// The place of the first of the numbers that is n.
pub fn place_of(numbers: &[u32], n: u32) -> Option<usize>
    ensures { result ≡ position (λ number. number == n) numbers.now }
{
    numbers.iter().position(|number| *number == n)
}
