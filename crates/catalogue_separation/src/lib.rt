// What separates two entries: their m, their d, then membership of the vectors of each in the lattice of the other. Each entry is reduced once.
#![tactic(auto)]

ghost use Rattle.std.specs.Prelude.{◌≡◌, not, [], map, ℕ, ◌<◌, length, pos, get_or, ◌≤ℤ◌};
ghost use Rattle.lattices.specs.Vector.{N};
ghost use Rattle.lattices.specs.Refusal.{most_coordinates};
ghost use Rattle.lattices.specs.Answer.{padded};
ghost use Rattle.successive_minima.specs.Member.{is_member};
ghost use Rattle.lattice_membership.specs.Known.{Known, vectors_in};
ghost use Rattle.catalogue_rules.specs.Form.{EntryFits};
ghost use Rattle.catalogue_records.specs.EntriesIn.{entry_in};
ghost use Rattle.catalogue_standing.specs.Places.{FirstFound};
ghost use Rattle.fold_rules.proofs.Laws.SameLattice.{Sound};
ghost use Rattle.separation_rules.specs.Separation.{separation};
ghost use Rattle.separation_answers.specs.Said.{told_by};
ghost use Rattle.catalogue_separation.specs.Outsides.{OutsideOf};

use catalogue_records::Entry;
use catalogue_standing::entry_lattices::lattice_of;
use lattice_membership::Lattice;
use row_operations::Vector;
use separation_answers::Separation;

// A vector of an entry outside a lattice: its place, and its squared distance to the lattice.
#[derive(Clone, Copy)]
struct Outside {
    place: usize,
    square: i64,
}

// The place of the first vector that is not in the lattice. With `position` what `member` asks of each is not proved.
fn first_outside(l: &Lattice, vectors: &[Vector]) -> Option<usize>
    requires known { Known l.now }
    requires by_index { (i : ℕ) → i < length vectors.now → N (get_or vectors.now i []) ≤ℤ pos 400000000 }
    ensures { FirstFound (λ i. not (is_member (vectors_in l.now) (get_or vectors.now i []))) (length vectors.now) result }
{
    for (i, v) in vectors.iter().enumerate() {
        if !lattice_membership::member(l, v) {
            return Some(i);
        }
    }
    None
}

// The first vector of e, as it was entered, outside the lattice.
fn outside_of(e: &Entry, l: &Lattice) -> Option<Outside>
    requires entry_fits { EntryFits (entry_in e.now) }
    requires known { Known l.now }
    ensures { OutsideOf (vectors_in l.now) (map (padded most_coordinates) (entry_in e.now).vectors) result }
{
    let vectors = input_checks::basis(&e.coordinates[..e.d * e.m], e.d, e.m);
    let place = first_outside(l, &vectors[..e.d])?;
    Some(Outside {
        place,
        square: reduced_lattices::squared_to(l, &vectors[place]),
    })
}

// The first true one of the five. Where m and d agree and all vectors of both are in the other lattice, both are one.
pub fn separated(e: &Entry, f: &Entry) -> Separation
    requires { (Sound (entry_in e.now)) × (Sound (entry_in f.now)) }
    ensures { told_by result ≡ separation (entry_in e.now) (entry_in f.now) }
{
    if e.m != f.m {
        return Separation::DifferentM;
    }
    if e.d != f.d {
        return Separation::DifferentD;
    }
    if let Some(first) = outside_of(e, &lattice_of(f)) {
        return Separation::FirstOutside((first.place + 1) as u32, first.square);
    }
    if let Some(second) = outside_of(f, &lattice_of(e)) {
        return Separation::SecondOutside((second.place + 1) as u32, second.square);
    }
    Separation::Same
}
