// A step of reading: what each word does to the state, row by row of the table of refusals.
ghost use Rattle.std.specs.Prelude.{◌≡◌, ◌≤◌, ◌<◌, length, take};
ghost use Rattle.integers.specs.Size.{Within};
ghost use Rattle.refusals.specs.Number.{refusal_in};
ghost use Rattle.catalogue_steps.specs.Words.{word_in};
ghost use Rattle.catalogue_steps.specs.Rows.{first_row, turn_in};
ghost use Rattle.catalogue_steps.specs.Readings.{first_reading, differs_read, form_read, number_read, head_read, head_number_read, head_size_read, vector_read, coordinate_read, draft_read, entry_read, end_read, outside_read, numbered_read, inside_read, after_read, ReadyFor, step_read};
ghost use Rattle.catalogue_rules.specs.Catalogue.{most_entries, most_numbers};
ghost use Rattle.catalogue_rules.specs.Read.{size_rows};
ghost use Rattle.lattices.specs.Refusal.{most_vectors, most_coordinates};

use super::parts::Part;
use super::words::Word;
use catalogue_records::{Catalogue, Form};
use refusals::Refusal;

// What may come next: a head or the end; the second word of a head; a coordinate; a mark unless it is there, a see word, a head or the end; nothing.
#[derive(Clone, Copy, PartialEq, Eq)]
pub enum Phase {
    Outside,
    Numbered,
    Inside,
    After,
    Closed,
}

// Where reading stands: what may come next, how many entries are whole, the form of the heads so far (old where there is none), and the entry being
// read: numbers only, since each step takes it and gives it back.
#[derive(Clone, Copy)]
pub struct Reading {
    pub phase: Phase,
    pub count: usize,
    pub form: Form,
    pub part: Part,
}

// Row 11 of a head: its number is zero, or one of those before it.
fn free(numbers: &[u32], n: u32) -> Result<(), Refusal>
    ensures { refusal_in result ≡ first_row (number_read numbers.now n) }
{
    if n == 0 || numbers.contains(&n) {
        return Err(Refusal::NumberNotFree);
    }
    Ok(())
}

// Rows 1 and 2 of a head.
fn sized(d: usize, m: usize) -> Result<(), Refusal>
    ensures { refusal_in result ≡ first_row (size_rows d m) }
{
    if !input_checks::one_to(input_checks::MOST_VECTORS, d) {
        return Err(Refusal::VectorCount);
    }
    if !input_checks::one_to(input_checks::MOST_COORDINATES, m) {
        return Err(Refusal::CoordinateCount);
    }
    Ok(())
}

impl Reading {
    // Nothing is read.
    pub fn start() -> Reading
        ensures { result ≡ first_reading }
    {
        Reading {
            phase: Phase::Outside,
            count: 0,
            form: Form::Old,
            part: Part::empty(),
        }
    }

    // Whether heads of the other form came before.
    fn differs(self, form: Form) -> bool
        ensures { result ≡ differs_read self form }
    {
        self.count != 0 && self.form != form
    }

    // Rows 10 and 15 of a head in this form, after the entries that are whole.
    fn fits(self, form: Form) -> Result<(), Refusal>
        ensures { refusal_in result ≡ first_row (form_read self form) }
    {
        if self.differs(form) {
            return Err(Refusal::WordOutOfPlace);
        }
        if Catalogue::MOST_ENTRIES <= self.count {
            return Err(Refusal::TooManyEntries);
        }
        Ok(())
    }

    // Row "head", for a head of one word, after the entries that are whole; numbers are theirs.
    fn at_head(
        self,
        numbers: &[u32],
        number: u32,
        d: usize,
        m: usize,
        i: usize,
    ) -> Result<Reading, Refusal>
        requires { self.count ≤ length numbers.now }
        ensures { turn_in result ≡ head_read numbers.now self number d m i }
    {
        self.fits(Form::Old)?;
        sized(d, m)?;
        free(&numbers[..self.count], number)?;
        Ok(Reading {
            phase: Phase::Inside,
            form: Form::Old,
            part: Part::start(number, d, m, i),
            ..self
        })
    }

    // Row "head" at the first of two words, the number; the size is due.
    fn at_head_number(self, numbers: &[u32], number: u32, i: usize) -> Result<Reading, Refusal>
        requires { self.count ≤ length numbers.now }
        ensures { turn_in result ≡ head_number_read numbers.now self number i }
    {
        self.fits(Form::New)?;
        let before = &numbers[..self.count];
        free(before, number)?;
        Ok(Reading {
            phase: Phase::Numbered,
            form: Form::New,
            part: Part::start(number, 0, 0, i),
            ..self
        })
    }

    // Row "head" at the second of two words: 20 for bits above d, then the rows of d and m.
    fn at_head_size(self, high: u32, d: usize, m: usize) -> Result<Reading, Refusal>
        ensures { turn_in result ≡ head_size_read self high d m }
    {
        if high != 0 {
            return Err(Refusal::HighBits);
        }
        sized(d, m)?;
        Ok(Reading {
            phase: Phase::Inside,
            part: Part::start(self.part.number, d, m, self.part.place),
            ..self
        })
    }

    // Row "coordinate" at a vector's last coordinate, the part up to it being given.
    fn at_vector(self, part: Part) -> Result<Reading, Refusal>
        requires row_lt_most_vectors { part.row < most_vectors }
        requires within { Within 8000000000 part.square }
        ensures { turn_in result ≡ vector_read self part }
    {
        if input_checks::MOST_SQUARE < part.square {
            return Err(Refusal::TooLong);
        }
        let part = part.with_vector();
        let phase = if part.row == part.d {
            Phase::After
        } else {
            Phase::Inside
        };
        Ok(Reading {
            phase,
            part,
            ..self
        })
    }

    // Row "coordinate".
    fn at_coordinate(self, load: u32) -> Result<Reading, Refusal>
        requires row_lt_most_vectors { self.part.row < most_vectors }
        requires column_lt_most_coordinates { self.part.column < most_coordinates }
        requires filled_lt_most_numbers { self.part.filled < most_numbers }
        requires within { Within 4000000000 self.part.square }
        ensures { turn_in result ≡ coordinate_read self load }
    {
        if Catalogue::MOST_LOAD < load {
            return Err(Refusal::TooLong);
        }
        let part = self.part.with_coordinate(i64::from(load) - 20000);
        if part.column == part.m {
            return self.at_vector(part);
        }
        Ok(Reading {
            phase: Phase::Inside,
            part,
            ..self
        })
    }

    // The mark of a draft: 10 where the entry has it, then 18 for its load.
    fn at_draft(self, load: u32) -> Result<Reading, Refusal>
        ensures { turn_in result ≡ draft_read self load }
    {
        if self.part.draft {
            return Err(Refusal::WordOutOfPlace);
        }
        if load != 1 {
            return Err(Refusal::WrongMark);
        }
        Ok(Reading {
            phase: Phase::After,
            part: self.part.with_mark(),
            ..self
        })
    }

    // The entry is whole.
    fn with_entry(self) -> Reading
        requires { self.count < most_entries }
        ensures { result ≡ entry_read self }
    {
        Reading {
            phase: Phase::Outside,
            count: self.count + 1,
            part: Part::empty(),
            ..self
        }
    }

    // Row "end", its first condition.
    fn at_end(self, count: u32) -> Result<Reading, Refusal>
        ensures { turn_in result ≡ end_read self count }
    {
        if count as usize != self.count {
            return Err(Refusal::WrongEnd);
        }
        Ok(Reading {
            phase: Phase::Closed,
            part: Part::empty(),
            ..self
        })
    }

    // A word between entries.
    fn outside(self, numbers: &[u32], i: usize, w: Word) -> Result<Reading, Refusal>
        requires { self.count ≤ length numbers.now }
        ensures { turn_in result ≡ outside_read numbers.now self i (word_in w) }
    {
        match w {
            Word::Head { number, d, m } => self.at_head(numbers, number, d, m, i),
            Word::End(count) => self.at_end(count),
            Word::HeadNumber(number) => self.at_head_number(numbers, number, i),
            _ => Err(Refusal::WordOutOfPlace),
        }
    }

    // A word where the second of a head is due.
    fn numbered_word(self, w: Word) -> Result<Reading, Refusal>
        ensures { turn_in result ≡ numbered_read self (word_in w) }
    {
        match w {
            Word::HeadSize { high, d, m } => self.at_head_size(high, d, m),
            _ => Err(Refusal::WordOutOfPlace),
        }
    }

    // A word within an entry.
    fn inside(self, w: Word) -> Result<Reading, Refusal>
        requires row_lt_most_vectors { self.part.row < most_vectors }
        requires column_lt_most_coordinates { self.part.column < most_coordinates }
        requires filled_lt_most_numbers { self.part.filled < most_numbers }
        requires within { Within 4000000000 self.part.square }
        ensures { turn_in result ≡ inside_read self (word_in w) }
    {
        match w {
            Word::Coordinate(load) => self.at_coordinate(load),
            _ => Err(Refusal::WordOutOfPlace),
        }
    }

    // A word after an entry's last coordinate: the entry gets its mark, or it is whole, with or without a see word.
    fn after(self, numbers: &[u32], i: usize, w: Word) -> Result<Reading, Refusal>
        requires count_lt_most_entries { self.count < most_entries }
        requires count_in_bounds { self.count < length numbers.now }
        ensures { turn_in result ≡ after_read numbers.now self i (word_in w) }
    {
        match w {
            Word::Head { number, d, m } => self.with_entry().at_head(numbers, number, d, m, i),
            Word::See(_) => Ok(self.with_entry()),
            Word::End(count) => self.with_entry().at_end(count),
            Word::Draft(load) => self.at_draft(load),
            Word::HeadNumber(number) => self.with_entry().at_head_number(numbers, number, i),
            _ => Err(Refusal::WordOutOfPlace),
        }
    }

    // The word at index i.
    pub fn step(self, numbers: &[u32], i: usize, w: Word) -> Result<Reading, Refusal>
        requires { ReadyFor numbers.now self }
        ensures { turn_in result ≡ step_read numbers.now self i (word_in w) }
    {
        match self.phase {
            Phase::Outside => self.outside(numbers, i, w),
            Phase::Numbered => self.numbered_word(w),
            Phase::Inside => self.inside(w),
            Phase::After => self.after(numbers, i, w),
            Phase::Closed => Err(Refusal::WordBehindEnd),
        }
    }
}
