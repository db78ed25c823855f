// What the fold prints of a standing entry: its reduced vectors; and where a see word leads.
ghost use Rattle.std.specs.Prelude.{◌≡◌, map, ℕ, ◌+◌, ◌≤◌, ◌<◌, pos, length, get_or, take};
ghost use Rattle.catalogue_rules.specs.Catalogue.{coordinates, most_numbers};
ghost use Rattle.integers.specs.Filled.{filled};
ghost use Rattle.lattices.specs.Refusal.{most_coordinates};
ghost use Rattle.lattice_membership.specs.Known.{left_in, vectors_in};
ghost use Rattle.std.proofs.lemmas.List.Edits.{sets};
ghost use Rattle.catalogue_fold.specs.Spread.{Full};
ghost use Rattle.catalogue_fold.specs.Printing.{Led, printed_as};

use catalogue_records::{Entry, NUMBERS, See};
use catalogue_standing::standing_places::place_of;
use lattice_membership::Lattice;

// The first m coordinates of a vector, from place n on.
fn put_row(out: &mut [i64], n: usize, v: &row_operations::Vector, m: usize)
    requires m_le_most_coordinates { m ≤ most_coordinates }
    requires m_in_bounds { n + m ≤ length out.old }
    ensures { out.new ≡ sets out.old n (take m v.now) }
{
    out[n..n + m].copy_from_slice(&v[..m]);
}

// The coordinates of the reduced vectors, vector by vector, then zeros.
fn spread(l: &Lattice) -> [i64; NUMBERS]
    requires { Full (left_in l.now) }
    ensures { result ≡ filled (pos 0) most_numbers (coordinates (map (take l.now.m) (vectors_in l.now))) }
{
    let mut out = [0; NUMBERS];
    for (i, v) in l.vectors[..l.d].iter().enumerate() {
        put_row(&mut out, i * l.m, v, l.m);
    }
    out
}

// Where the see word of an entry leads: the word with the standing number of the entry named, and none when that is its own.
pub fn way_of(e: &Entry, own: u32, numbers: &[u32], standing: &[usize]) -> Option<See>
    requires count_in_bounds { length numbers.now ≤ length standing.now }
    requires by_index { (k : ℕ) → k < length numbers.now → get_or standing.now k 0 < length numbers.now }
    ensures { Led e.now own numbers.now standing.now (length numbers.now) result }
{
    let see = e.see?;
    let k = place_of(numbers, see.number)?;
    let there = numbers[standing[k]];
    if there == own {
        return None;
    }
    Some(See {
        number: there,
        ..see
    })
}

// A standing entry as it is printed, with the see word that it carries: a draft keeps its mark.
pub fn printed(e: &Entry, l: &Lattice, see: Option<See>) -> Entry
    requires { Full (left_in l.now) }
    ensures { result ≡ printed_as e.now (left_in l.now) see }
{
    Entry {
        see,
        coordinates: spread(l),
        ..*e
    }
}
