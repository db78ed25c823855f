// What a lookup answers.
ghost use Rattle.std.specs.Prelude.{◌≡◌, ◌==◌, map, position, ℕ, ◌≤◌, ◌<◌, length, get_or};
ghost use Rattle.integers.specs.Every.{any};
ghost use Rattle.catalogue_standing.specs.Standers.{Stander};
ghost use Rattle.merges.specs.Looking.{names, missing_as, found_as};

use super::{Answer, Item};
use refusals::{Refusal, Refused};

pub(crate) const CLOSED: Refused = Refused {
    refusal: Refusal::MergeClosed,
    place: 0,
};

// The place of the entry with this number.
pub(crate) fn place_of(items: &[Item], number: u32) -> Option<usize>
    ensures { result ≡ position (λ i. i.number == number) items.now }
{
    items.iter().position(|i| i.number == number)
}

// The place of the standing entry of the lattice whose first entry is at place f: the first of it that is no draft, else the first of all.
pub(crate) fn stander(items: &[Item], f: usize) -> usize
    requires by_index { (k : ℕ) → k < length items.now → get_or (map (λ i. i.first) items.now) k 0 ≤ k }
    requires f_lt_len { f < length items.now }
    requires f_value { get_or (map (λ i. i.first) items.now) f 0 ≡ f }
    ensures { Stander (map (λ i. i.first) items.now) (map (λ i. i.draft) items.now) (length items.now) f result }
{
    for j in f..items.len() {
        if items[j].first == f && !items[j].draft {
            return j;
        }
    }
    f
}

// Whether a see word names n.
fn is_named(items: &[Item], n: u32) -> bool
    ensures { result ≡ any (λ i. names n i.see) items.now }
{
    for i in items {
        if i.see == Some(n) {
            return true;
        }
    }
    false
}

// A number that no entry has: 'not yet' where a see word of an open merge names it.
pub(crate) fn missing(closed: bool, items: &[Item], n: u32) -> Result<Answer, Refused>
    ensures { result ≡ missing_as closed (any (λ i. names n i.see) items.now) }
{
    if !closed && is_named(items, n) {
        return Ok(Answer::NotYet);
    }
    Err(Refused {
        refusal: Refusal::NoSuchEntry,
        place: 0,
    })
}

// A standing number: final once the merge is closed.
pub(crate) fn found(closed: bool, standing: u32) -> Answer
    ensures { result ≡ found_as closed standing }
{
    if closed {
        return Answer::Final(standing);
    }
    Answer::Provisional(standing)
}
