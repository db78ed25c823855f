// The refusals of document 01 ("Refused, by place of checking") and those that the requests of document 02 added.
#![tactic(auto)]

ghost use Rattle.std.specs.Prelude.{◌≡◌};
ghost use Rattle.refusals.specs.Number.{number_of};

use std::fmt;

#[derive(Clone, Copy, Debug, PartialEq, Eq)]
pub enum Refusal {
    VectorCount,
    CoordinateCount,
    NumberCount,
    TooLong,
    Dependent,
    TargetCount,
    TargetTooLong,
    PartOfAWord,
    TooManyBytes,
    WordOutOfPlace,
    NumberNotFree,
    SeesNoEntry,
    WrongEnd,
    WordBehindEnd,
    TooManyEntries,
    OutputTooShort,
    NoSuchEntry,
    WrongMark,
    NumberTooLarge,
    HighBits,
    MergeClosed,
}

// A refusal and its place.
#[derive(Clone, Copy, Debug, PartialEq, Eq)]
pub struct Refused {
    pub refusal: Refusal,
    pub place: usize,
}

impl Refusal {
    // In the order of their numbers.
    pub const ALL: [Refusal; 21] = [
        Refusal::VectorCount,
        Refusal::CoordinateCount,
        Refusal::NumberCount,
        Refusal::TooLong,
        Refusal::Dependent,
        Refusal::TargetCount,
        Refusal::TargetTooLong,
        Refusal::PartOfAWord,
        Refusal::TooManyBytes,
        Refusal::WordOutOfPlace,
        Refusal::NumberNotFree,
        Refusal::SeesNoEntry,
        Refusal::WrongEnd,
        Refusal::WordBehindEnd,
        Refusal::TooManyEntries,
        Refusal::OutputTooShort,
        Refusal::NoSuchEntry,
        Refusal::WrongMark,
        Refusal::NumberTooLarge,
        Refusal::HighBits,
        Refusal::MergeClosed,
    ];

    // The number that the documents give it.
    pub fn number(self) -> u64
        ensures { result ≡ number_of self }
    {
        match self {
            Refusal::VectorCount => 1,
            Refusal::CoordinateCount => 2,
            Refusal::NumberCount => 3,
            Refusal::TooLong => 4,
            Refusal::Dependent => 5,
            Refusal::TargetCount => 6,
            Refusal::TargetTooLong => 7,
            Refusal::PartOfAWord => 8,
            Refusal::TooManyBytes => 9,
            Refusal::WordOutOfPlace => 10,
            Refusal::NumberNotFree => 11,
            Refusal::SeesNoEntry => 12,
            Refusal::WrongEnd => 13,
            Refusal::WordBehindEnd => 14,
            Refusal::TooManyEntries => 15,
            Refusal::OutputTooShort => 16,
            Refusal::NoSuchEntry => 17,
            Refusal::WrongMark => 18,
            Refusal::NumberTooLarge => 19,
            Refusal::HighBits => 20,
            Refusal::MergeClosed => 21,
        }
    }
}

// What a refusal means.
impl fmt::Display for Refusal {
    fn fmt<W: fmt::Write>(&self, f: &mut fmt::Formatter<W>) -> fmt::Result {
        f.write_str(match self {
            Refusal::VectorCount => "d is not 1 to 4",
            Refusal::CoordinateCount => "m is not 1 to 8",
            Refusal::NumberCount => "there are not d times m numbers",
            Refusal::TooLong => "a coordinate beyond 20000 or a squared length over 400000000",
            Refusal::Dependent => "the vectors are dependent",
            Refusal::TargetCount => "the target has not m numbers",
            Refusal::TargetTooLong => {
                "a coordinate of the target beyond 20000 or its squared length over 400000000"
            }
            Refusal::PartOfAWord => "the number of bytes is not a multiple of 4",
            Refusal::TooManyBytes => "more than 35844 bytes, or 36868 in the new form",
            Refusal::WordOutOfPlace => "a word that cannot stand here, or none where one must come",
            Refusal::NumberNotFree => "the entry's number is 0 or used before",
            Refusal::SeesNoEntry => "the see word names no entry",
            Refusal::WrongEnd => "the end word counts another number of entries",
            Refusal::WordBehindEnd => "a word behind the end word",
            Refusal::TooManyEntries => "more than 256 entries",
            Refusal::OutputTooShort => "the output is shorter than what is to be written",
            Refusal::NoSuchEntry => "no entry has the number",
            Refusal::WrongMark => "a draft mark whose load is not 1",
            Refusal::NumberTooLarge => "a number over 1048575 has no place in the old form",
            Refusal::HighBits => "a size word with bits above d and m",
            Refusal::MergeClosed => "the merge is closed",
        })
    }
}
