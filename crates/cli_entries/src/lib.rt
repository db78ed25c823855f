// Entries on the command line: the number that a word writes, and what is wrong with a line that tells one.
#![tactic(auto)]

ghost use Rattle.std.specs.Prelude.{◌≡◌, ◌+◌, ◌≤◌, length};
ghost use Rattle.text_output.specs.Puts.{Puts};
ghost use Rattle.cli_entries.specs.Asked.{asked_or_none, wanted_in};
ghost use Rattle.cli_entries.specs.Mistakes.{sentence, mistake_text, mistake_room};

use catalogue_records::Catalogue;
use text_lines::Mistake;
use text_parts::{Kind, read_part};

// The line with the longest sentence about a line takes so many bytes.
pub const MOST_MISTAKE: usize = 92;

// A number that no entry has and no see word names.
const NO_ENTRY: u32 = Catalogue::MOST_NUMBER + 1;

// A number as it is asked for. What is no entry's number becomes one that none has.
fn asked(n: i64) -> u32
    ensures { result ≡ asked_or_none n }
{
    match u32::try_from(n) {
        Ok(k) if k <= Catalogue::MOST_NUMBER => k,
        _ => NO_ENTRY,
    }
}

// The number that a word writes, if it is one.
pub fn entry_in(word: &[u8]) -> Option<u32>
    ensures { result ≡ wanted_in word.now }
{
    let mut numbers = [0; 1];
    let part = read_part(word, &mut numbers);
    let [n] = numbers;
    if part.stop == Kind::End && part.count == 1 {
        return Some(asked(n));
    }
    None
}

// What a mistake is.
fn sentence(mistake: Mistake) -> &'static [u8]
    ensures value { result.now ≡ sentence mistake }
    ensures length_bound { length result.now ≤ 63 }
{
    match mistake {
        Mistake::PartMissing => b"a part is missing",
        Mistake::TooLarge => b"a number beyond 64 bits",
        Mistake::TooMany => b"too many numbers",
        Mistake::NoNumber => b"something that is no number",
        Mistake::NotThree => b"not number, d and m",
        Mistake::NoHead => b"number, d or m that no head of this form holds",
        Mistake::NotAll => b"not d times m coordinates",
        Mistake::Beyond => b"a coordinate beyond 20000",
        Mistake::NoSee => b"neither draft nor the number of an entry behind the coordinates",
    }
}

// The line that says what a mistake is; nothing where nothing is wrong.
pub fn put_mistake(out: &mut [u8], at: usize, line: u64, mistake: Option<Mistake>) -> usize
    requires { at + mistake_room ≤ length out.old }
    ensures puts { Puts (mistake_text line mistake) out.old at out.new result }
    ensures upper_bound { result ≤ at + mistake_room }
{
    match mistake {
        Some(m) => cli_answers::put_error(out, at, line, sentence(m)),
        None => at,
    }
}
