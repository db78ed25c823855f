// What is stored of a catalogue: an entry with its see word, and the entries in an array.
#![tactic(auto)]

ghost use Rattle.std.specs.Prelude.{◌≡◌, ◌≤◌, length, map, take};
ghost use Rattle.integers.specs.Filled.{filled};
ghost use Rattle.catalogue_rules.specs.Catalogue.{most_entries};
ghost use Rattle.catalogue_records.specs.Stored.{no_entry};
ghost use Rattle.catalogue_records.specs.Catalogues.{no_catalogue};

// How many coordinates an entry may have.
pub const NUMBERS: usize = 4 * row_operations::WIDTH;

// The form of a head: one word, or two with a longer number.
#[derive(Clone, Copy, PartialEq, Eq)]
pub enum Form {
    Old,
    New,
}

// A see word: the number that it names, and the index of the word.
#[derive(Clone, Copy)]
pub struct See {
    pub number: u32,
    pub place: usize,
}

// An entry: its head, the form of the head and its place; whether it is a draft; its see word; d times m coordinates, then zeros.
#[derive(Clone, Copy)]
pub struct Entry {
    pub form: Form,
    pub number: u32,
    pub d: usize,
    pub m: usize,
    pub place: usize,
    pub draft: bool,
    pub see: Option<See>,
    pub coordinates: [i64; NUMBERS],
}

// The first count entries; those after them are empty.
#[derive(Clone, Copy)]
pub struct Catalogue {
    pub count: usize,
    pub entries: [Entry; Catalogue::MOST_ENTRIES],
}

impl Catalogue {
    pub const MOST_ENTRIES: usize = 256;

    // Of the largest entries a head, the coordinates, a mark and a see word each, then an end word; a word has four bytes. In the old form a head
    // has one word.
    pub const MOST_OLD_BYTES: usize = (Self::MOST_ENTRIES * (1 + NUMBERS + 2) + 1) * 4;

    // In the new form it has two; no catalogue has more bytes.
    pub const MOST_BYTES: usize = (Self::MOST_ENTRIES * (2 + NUMBERS + 2) + 1) * 4;

    // The least is 1.
    pub const MOST_OLD_NUMBER: u32 = 1048575;

    pub const MOST_NUMBER: u32 = 268435455;

    pub const MOST_LOAD: u32 = 40000;

    pub fn empty() -> Catalogue
        ensures { result ≡ no_catalogue }
    {
        Catalogue {
            count: 0,
            entries: [Entry::empty(); Self::MOST_ENTRIES],
        }
    }

    // The entries.
    pub fn list(&self) -> &[Entry]
        requires { self.now.count ≤ most_entries }
        ensures { result.now ≡ take self.now.count self.now.entries }
    {
        &self.entries[..self.count]
    }
}

impl Entry {
    pub fn empty() -> Entry
        ensures { result ≡ no_entry }
    {
        Entry {
            form: Form::Old,
            number: 0,
            d: 0,
            m: 0,
            place: 0,
            draft: false,
            see: None,
            coordinates: [0; NUMBERS],
        }
    }
}

// The numbers of the entries, then zeros.
pub fn numbers(entries: &[Entry]) -> [u32; Catalogue::MOST_ENTRIES]
    requires { length entries.now ≤ most_entries }
    ensures { result ≡ filled 0 most_entries (map (λ e. e.number) entries.now) }
{
    let mut numbers = [0; Catalogue::MOST_ENTRIES];
    for (k, e) in entries.iter().enumerate() {
        numbers[k] = e.number;
    }
    numbers
}
