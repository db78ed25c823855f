// The open merge: a list of entries that grows by additions, is looked up on the way, and is closed at last. It goes by value: each method takes it
// and hands it back. What is kept of an entry does not change when others follow.
#![tactic(auto)]

ghost use Rattle.std.specs.Prelude.{◌≡◌, true, ◌≤◌, ◌<◌};
ghost use Rattle.merge_rules.specs.Merge.{start, add_to, look_in, close_of, file_of, said};
ghost use Rattle.fold_rules.specs.Services.{fold_of, list_of};
ghost use Rattle.separation_rules.specs.Separation.{separate_of};
ghost use Rattle.separation_answers.specs.Said.{said_by};
ghost use Rattle.catalogue_records.specs.Catalogues.{catalogue_of};
ghost use Rattle.catalogue_rules.specs.Catalogue.{most_entries};
ghost use Rattle.catalogue_records.specs.EntriesIn.{entry_in, output_in};
ghost use Rattle.fold_rules.proofs.Laws.SameLattice.{Sound};
ghost use Rattle.lattice_membership.specs.Known.{KnownChoice};
ghost use Rattle.catalogue_standing.specs.ReducedEntry.{reduced_entry};
ghost use Rattle.catalogue_standing.specs.SameLattice.{LatticeOf};
ghost use Rattle.catalogue_standing.specs.Places.{First};
ghost use Rattle.merges.specs.Stored.{merge_in, said_in, answer_in, shut_of};
ghost use Rattle.merges.specs.IsMerge.{shortest_of, IsMerge};
ghost use Rattle.merges.specs.Growing.{is_first_of, Readable, Grown};

use catalogue_records::{Catalogue, Entry};
use catalogue_standing::entry_lattices::lattice_of;
use lattice_membership::Lattice;
use refusals::{Refusal, Refused};
use separation_answers::Separation;

mod looking;
mod rows;

// The vectors of an entry: d times m coordinates, none over 20,000 in size, then zeros.
#[derive(Clone, Copy)]
pub struct Vectors {
    pub d: usize,
    pub m: usize,
    pub coordinates: [i16; catalogue_records::NUMBERS],
}

// What is kept of an entry: its number, whether it is a draft, the number that its see word names, its vectors; the squared length of a shortest
// vector of its lattice, and the place of the first entry of its lattice.
#[derive(Clone, Copy)]
pub struct Item {
    pub number: u32,
    pub draft: bool,
    pub see: Option<u32>,
    pub vectors: Vectors,
    pub shortest: i64,
    pub first: usize,
}

// Whether it is closed, and the entries that were added: the first count items.
#[derive(Clone, Copy)]
pub struct Merge {
    pub closed: bool,
    pub count: usize,
    pub items: [Item; Catalogue::MOST_ENTRIES],
}

// What a call answers: it was done, a standing number that is provisional or final, or that the number is named but was not added yet.
#[derive(Clone, Copy, PartialEq, Eq)]
pub enum Answer {
    Done,
    Provisional(u32),
    Final(u32),
    NotYet,
}

// The merge handed back, and the answer.
#[derive(Clone, Copy)]
pub struct Said {
    pub merge: Merge,
    pub answer: Result<Answer, Refused>,
}

impl Merge {
    // Open and empty.
    pub fn start() -> Merge
        ensures merge { IsMerge result }
        ensures result_value { merge_in result ≡ start }
    {
        let none = Item {
            number: 0,
            draft: false,
            see: None,
            vectors: Vectors {
                d: 0,
                m: 0,
                coordinates: [0; catalogue_records::NUMBERS],
            },
            shortest: 0,
            first: 0,
        };
        Merge {
            closed: false,
            count: 0,
            items: [none; Catalogue::MOST_ENTRIES],
        }
    }

    // Adds the entry of these bytes; 21 where the merge is closed, before anything else. A refused addition leaves the merge as it was.
    pub fn add(self, bytes: &[u8]) -> Said
        requires { IsMerge self }
        ensures merge { IsMerge result.merge }
        ensures result_value { said_in result ≡ add_to (merge_in self) bytes.now }
    {
        let mut merge = self;
        let answer = merge.take_in(bytes);
        Said { merge, answer }
    }

    // The answer to a lookup, without handing the merge back.
    pub fn looked(self, number: u32) -> Result<Answer, Refused>
        requires { IsMerge self }
        ensures { answer_in result ≡ look_in (merge_in self) number }
    {
        let items = &self.items[..self.count];
        match looking::place_of(items, number) {
            Some(k) => {
                let s = looking::stander(items, items[k].first);
                Ok(looking::found(self.closed, items[s].number))
            }
            None => looking::missing(self.closed, items, number),
        }
    }

    // The standing number of the entry with this number: provisional while the merge is open. The merge is handed back as it was.
    pub fn look_up(self, number: u32) -> Said
        requires { IsMerge self }
        ensures merge { IsMerge result.merge }
        ensures result_value { said_in result ≡ said (merge_in self) (look_in (merge_in self) number) }
    {
        Said {
            merge: self,
            answer: self.looked(number),
        }
    }

    // Closes the merge; 21 where it is closed, 12 where a see word names no entry, and it stays open then.
    pub fn close(self) -> Said
        requires { IsMerge self }
        ensures merge { IsMerge result.merge }
        ensures result_value { said_in result ≡ close_of (merge_in self) }
    {
        if self.closed {
            return Said {
                merge: self,
                answer: Err(looking::CLOSED),
            };
        }
        let c = self.catalogue();
        if let Some(place) = catalogue_reader::first_lost(c.list()) {
            return Said {
                merge: self,
                answer: Err(Refused {
                    refusal: Refusal::SeesNoEntry,
                    place,
                }),
            };
        }
        Said {
            merge: self.shut(),
            answer: Ok(Answer::Done),
        }
    }

    // The fold of a closed merge, in the new form, written to the lent output.
    pub fn fold(self, out: &mut [u8]) -> Result<usize, Refused>
        requires merge { IsMerge self }
        requires closed_value { self.closed ≡ true }
        ensures { output_in result out.new ≡ fold_of (file_of (merge_in self)) out.old }
    {
        let c = self.catalogue();
        catalogue::fold_read(c.list(), out)
    }

    // The listing of a closed merge, written to the lent output.
    pub fn list(self, out: &mut [u8]) -> Result<usize, Refused>
        requires merge { IsMerge self }
        requires closed_value { self.closed ≡ true }
        ensures { output_in result out.new ≡ list_of (file_of (merge_in self)) out.old }
    {
        let c = self.catalogue();
        catalogue_listing::list_read(c.list(), out)
    }

    // What separates two entries of a closed merge.
    pub fn separate(self, first: u32, second: u32) -> Result<Separation, Refused>
        requires merge { IsMerge self }
        requires closed_value { self.closed ≡ true }
        ensures { said_by result ≡ separate_of (file_of (merge_in self)) first second }
    {
        let c = self.catalogue();
        catalogue::separate_read(c.list(), first, second)
    }

    // Closed, with the same entries.
    fn shut(self) -> Merge
        ensures { result ≡ shut_of self }
    {
        Merge {
            closed: true,
            ..self
        }
    }

    // The catalogue of the entries in the order added, in the new form.
    fn catalogue(&self) -> Catalogue
        requires { IsMerge self.now }
        ensures { result ≡ catalogue_of (merge_in self.now).entries }
    {
        let mut c = Catalogue::empty();
        let mut place = 0;
        for (k, i) in self.items[..self.count].iter().enumerate() {
            let past = rows::see_place(place, i.vectors.d, i.vectors.m, i.draft);
            c.entries[k] = rows::entry(i, place, past);
            place = rows::after(past, i.see);
        }
        c.count = self.count;
        c
    }

    // The place of the first entry of the lattice of e, which is l, else the count. Only first entries are compared, and of these only such with a
    // vector as short.
    fn first_place(&self, e: &Entry, l: &Lattice, square: i64) -> usize
        requires merge { IsMerge self.now }
        requires sound { Sound (entry_in e.now) }
        requires lattice_of { LatticeOf (reduced_entry (entry_in e.now)) l.now }
        requires chosen { KnownChoice l.now }
        requires square_value { square ≡ shortest_of (reduced_entry (entry_in e.now)) }
        ensures { First (is_first_of self.now (entry_in e.now)) self.now.count result }
    {
        for (j, i) in self.items[..self.count].iter().enumerate() {
            if i.first == j && i.shortest == square && rows::same(i, e, l) {
                return j;
            }
        }
        self.count
    }

    // One entry more, as it was read.
    fn put(&mut self, e: &Entry)
        requires merge { IsMerge self.old }
        requires count_lt_most_entries { self.old.count < most_entries }
        requires readable { Readable e.now }
        ensures { Grown self.old e.now self.new }
    {
        let l = lattice_of(e);
        let square = l.squares[0];
        let first = self.first_place(e, &l, square);
        self.items[self.count] = rows::item(e, square, first);
        self.count += 1;
    }

    // Adds the entry of these bytes where the merge lies: handed on by value it is copied at each step.
    fn take_in(&mut self, bytes: &[u8]) -> Result<Answer, Refused>
        requires { IsMerge self.old }
        ensures merge { IsMerge self.new }
        ensures value { said (merge_in self.new) (answer_in result) ≡ add_to (merge_in self.old) bytes.now }
    {
        if self.closed {
            return Err(looking::CLOSED);
        }
        let numbers = rows::numbers(&self.items[..self.count]);
        match merge_additions::read_addition(bytes, &numbers, self.count) {
            Ok(e) => {
                self.put(&e);
                Ok(Answer::Done)
            }
            Err(refused) => Err(refused),
        }
    }
}
