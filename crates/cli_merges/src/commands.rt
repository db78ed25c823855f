// Which command a line begins with.
ghost use Rattle.std.specs.Prelude.{◌≡◌, ◌+◌, ◌≤◌, length};
ghost use Rattle.text_parts.specs.Numbers.{leading};
ghost use Rattle.text_parts.specs.Tokens.{is_blank};
ghost use Rattle.cli_merges.specs.Commands.{word_length, word_end, first_word, same, command_of};

use text_parts::tokens::{blanks, is_blank};

// What a line asks of the merge.
#[derive(Clone, Copy)]
pub enum Command {
    Add,
    Bytes,
    Look,
    Close,
    Listing,
    Fold,
    Unknown,
}

// The command, and how many bytes it takes with the blanks before it.
#[derive(Clone, Copy)]
pub(crate) struct Asked {
    pub(crate) command: Command,
    pub(crate) length: usize,
}

// Where a word begins and where it ends.
#[derive(Clone, Copy)]
pub(crate) struct Word {
    pub(crate) from: usize,
    pub(crate) end: usize,
}

// How long the word is that the bytes begin with: up to a blank, or to the end.
fn word_length(s: &[u8]) -> usize
    ensures value { result ≡ word_length s.now }
    ensures upper_bound { result ≤ length s.now }
{
    s.iter().position(|&b| is_blank(b)).unwrap_or(s.len())
}

// Whether two words are the same.
fn is_same(word: &[u8], other: &[u8]) -> bool
    ensures { result ≡ same word.now other.now }
{
    word == other
}

// The command that a word is. A `match` on the bytes leaves goals open.
fn named(word: &[u8]) -> Command
    ensures { result ≡ command_of word.now }
{
    if is_same(word, b"add") {
        return Command::Add;
    }
    if is_same(word, b"bytes") {
        return Command::Bytes;
    }
    if is_same(word, b"look") {
        return Command::Look;
    }
    if is_same(word, b"close") {
        return Command::Close;
    }
    if is_same(word, b"list") {
        return Command::Listing;
    }
    if is_same(word, b"fold") {
        return Command::Fold;
    }
    Command::Unknown
}

// The first word of a line, behind blanks: where it begins and where it ends.
pub(crate) fn first_word(s: &[u8]) -> Word
    ensures from_value { result.from ≡ leading is_blank s.now }
    ensures end_value { result.end ≡ word_end s.now }
    ensures from_le_end { (result.from ≤ result.end) × (result.end ≤ length s.now) }
{
    let from = blanks(s);
    Word {
        from,
        end: from + word_length(&s[from..]),
    }
}

// The command that a line begins with.
pub(crate) fn read_command(s: &[u8]) -> Asked
    ensures command_value { result.command ≡ command_of (first_word s.now) }
    ensures length_value { result.length ≡ word_end s.now }
    ensures length_in_bounds { result.length ≤ length s.now }
{
    let word = first_word(s);
    Asked {
        command: named(&s[word.from..word.end]),
        length: word.end,
    }
}
