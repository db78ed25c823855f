// An entry while it is read.
ghost use Rattle.std.specs.Prelude.{◌≡◌, ◌≤◌, ◌<◌, pos, take};
ghost use Rattle.integers.specs.Filled.{filled};
ghost use Rattle.integers.specs.Size.{Within};
ghost use Rattle.catalogue_steps.specs.Words.{word_in};
ghost use Rattle.catalogue_steps.specs.Cells.{Place, placed};
ghost use Rattle.catalogue_steps.specs.Parts.{no_part, put_coordinate, put_vector, put_mark, started, whole, whole_at};
ghost use Rattle.catalogue_rules.specs.Catalogue.{most_numbers};
ghost use Rattle.lattices.specs.Refusal.{most_vectors, most_coordinates};

use super::words::Word;
use catalogue_records::{Entry, Form, NUMBERS, See};

// What is read of an entry: its head, how many vectors are whole, how many coordinates of the next one and the sum of their squares, how many
// coordinates in all, and whether the mark of a draft was read. The coordinates themselves stand in an array beside it, so that no step copies them.
#[derive(Clone, Copy)]
pub struct Part {
    pub number: u32,
    pub d: usize,
    pub m: usize,
    pub place: usize,
    pub row: usize,
    pub column: usize,
    pub square: i64,
    pub filled: usize,
    pub draft: bool,
}

impl Part {
    // Nothing after a head.
    pub fn start(number: u32, d: usize, m: usize, place: usize) -> Part
        ensures { result ≡ started number d m place }
    {
        Part {
            number,
            d,
            m,
            place,
            row: 0,
            column: 0,
            square: 0,
            filled: 0,
            draft: false,
        }
    }

    pub fn empty() -> Part
        ensures { result ≡ no_part }
    {
        Part::start(0, 0, 0, 0)
    }

    // One coordinate more.
    pub fn with_coordinate(self, x: i64) -> Part
        requires column_lt_most_coordinates { self.column < most_coordinates }
        requires filled_lt_most_numbers { self.filled < most_numbers }
        requires within { Within 4000000000 self.square }
        requires within_2 { Within 20000 x }
        ensures { result ≡ put_coordinate self x }
    {
        Part {
            column: self.column + 1,
            square: self.square + x * x,
            filled: self.filled + 1,
            ..self
        }
    }

    // The vector is whole: the next one starts.
    pub fn with_vector(self) -> Part
        requires { self.row < most_vectors }
        ensures { result ≡ put_vector self }
    {
        Part {
            row: self.row + 1,
            column: 0,
            square: 0,
            ..self
        }
    }

    // The entry is a draft.
    pub fn with_mark(self) -> Part
        ensures { result ≡ put_mark self }
    {
        Part {
            draft: true,
            ..self
        }
    }

    // The entry is whole, with or without a see word; its head has this form.
    pub fn entry(self, form: Form, coordinates: [i64; NUMBERS], see: Option<See>) -> Entry
        ensures { result ≡ whole self form coordinates see }
    {
        Entry {
            form,
            number: self.number,
            d: self.d,
            m: self.m,
            place: self.place,
            draft: self.draft,
            see,
            coordinates,
        }
    }

    // The entry that the word at index i makes whole.
    pub fn whole(self, form: Form, coordinates: [i64; NUMBERS], i: usize, w: Word) -> Entry
        ensures { result ≡ whole_at self form coordinates i (word_in w) }
    {
        match w {
            Word::See(number) => self.entry(form, coordinates, Some(See { number, place: i })),
            _ => self.entry(form, coordinates, None),
        }
    }
}

// The first n of the numbers, then zeros.
pub fn first_numbers(numbers: &[i64; NUMBERS], n: usize) -> [i64; NUMBERS]
    requires { n ≤ most_numbers }
    ensures { result ≡ filled (pos 0) most_numbers (take n numbers.now) }
{
    let mut r = [0; NUMBERS];
    r[..n].copy_from_slice(&numbers[..n]);
    r
}

// A coordinate is stored after those of the entry before it.
pub fn store(coordinates: &mut [i64; NUMBERS], n: usize, w: Word)
    requires { Place n (word_in w) }
    ensures { coordinates.new ≡ placed coordinates.old n (word_in w) }
{
    if let Word::Coordinate(load) = w {
        coordinates[n] = i64::from(load) - 20000;
    }
}
