// Words out of bytes, and what a word is.
ghost use Rattle.std.specs.Prelude.{◌≡◌, ◌+◌, ◌*◌, ◌≤◌, length, get_or};
ghost use Rattle.catalogue_rules.specs.Word.{decode, words_of};
ghost use Rattle.catalogue_records.specs.EntriesIn.{form_in};
ghost use Rattle.catalogue_steps.specs.Words.{word_in, opens};

use catalogue_records::Form;

// A word's case with its load: the kinds 1 to 7, and what is refused. A head of two words is its number and its size; `high` are the bits above d.
// No two words are compared.
#[derive(Clone, Copy)]
pub enum Word {
    Head { number: u32, d: usize, m: usize },
    Coordinate(u32),
    See(u32),
    End(u32),
    Draft(u32),
    HeadNumber(u32),
    HeadSize { high: u32, d: usize, m: usize },
    Other { kind: u32, load: u32 },
}

impl Word {
    // Whether it is the first word of a head in this form; of `Other` the kind tells it.
    pub fn opens(self, form: Form) -> bool
        ensures { result ≡ opens (form_in form) (word_in self) }
    {
        match form {
            Form::Old => matches!(self, Word::Head { .. } | Word::Other { kind: 1, .. }),
            Form::New => matches!(self, Word::HeadNumber(_) | Word::Other { kind: 6, .. }),
        }
    }
}

// The i-th word, lowest byte first.
pub fn word_at(bytes: &[u8], i: usize) -> u32
    requires { i * 4 + 4 ≤ length bytes.now }
    ensures { result ≡ get_or (words_of bytes.now) i 0 }
{
    let at = i * 4;
    u32::from_le_bytes([bytes[at], bytes[at + 1], bytes[at + 2], bytes[at + 3]])
}

// The top 4 bits are the kind, the other 28 the load.
#[tactic(auto, unfolding(catalogue_rules::specs::Word::decode))]
pub fn decode(w: u32) -> Word
    ensures { word_in result ≡ decode w }
{
    let kind = w / 268435456;
    let load = w % 268435456;
    match kind {
        1 => Word::Head {
            number: load / 256,
            d: (load / 16 % 16) as usize,
            m: (load % 16) as usize,
        },
        2 => Word::Coordinate(load),
        3 => Word::See(load),
        4 => Word::End(load),
        5 => Word::Draft(load),
        6 => Word::HeadNumber(load),
        7 => Word::HeadSize {
            high: load / 256,
            d: (load / 16 % 16) as usize,
            m: (load % 16) as usize,
        },
        _ => Word::Other {
            kind: kind,
            load: load,
        },
    }
}
