// A line answered: a call of the merge, or what is wrong with the line.
ghost use Rattle.std.specs.Prelude.{◌≡◌, true, ◌+◌, ◌*◌, ◌≤◌, length, map, IfOk};
ghost use Rattle.text_output.specs.Puts.{Puts};
ghost use Rattle.integers.specs.All.{All};
ghost use Rattle.catalogue_rules.specs.Form.{EntryFits};
ghost use Rattle.catalogue_records.specs.EntriesIn.{entry_in};
ghost use Rattle.text_rules.specs.Encoding.{is_empty};
ghost use Rattle.text_rules.specs.Text.{text_of};
ghost use Rattle.text_lines.specs.Told.{words_in};
ghost use Rattle.catalogue_rules.specs.Word.{bytes_of};
ghost use Rattle.catalogue_rules.specs.Read.{read};
ghost use Rattle.cli_answers.specs.Answers.{error_text};
ghost use Rattle.cli_entries.specs.Asked.{wanted_in};
ghost use Rattle.merges.specs.Stored.{merge_in};
ghost use Rattle.merges.specs.IsMerge.{IsMerge};
ghost use Rattle.cli_merges.specs.Replies.{behind_command, add_bytes, add_text, add_digits, add_hexadecimal, looked_text, close_reply, written_by, listing_of, outcome_text, fold_text_of, closed_reply, command_reply, content_reply, answer};
ghost use Rattle.cli_merges.specs.Room.{reply_room};
ghost use Rattle.cli_merges.specs.Gives.{Gives};

use super::answers::put_answer;
use super::commands::{Command, first_word, read_command};
use super::digits;
use catalogue_records::{Catalogue, Entry, Form};
use cli_answers::{put_error, put_refused};
use merges::Merge;
use refusals::Refused;
use text_lines::{Line, Mistake};
use text_parts::tokens::blanks;

// No answer takes more bytes than the longest listing.
pub const MOST_BYTES: usize = catalogue_listing::MOST_BYTES;

// No line has more bytes.
const MOST_LINE: usize = 4096;

// The merge after a line, and how far the output is filled.
#[derive(Clone, Copy)]
pub struct Reply {
    pub merge: Merge,
    pub at: usize,
}

// Whether nothing but blanks stands there.
fn is_blank(s: &[u8]) -> bool
    ensures { result ≡ is_empty s.now }
{
    blanks(s) == s.len()
}

// Says that something follows a command that stands alone.
fn put_behind(out: &mut [u8], at: usize, line: u64) -> usize
    requires { at + reply_room ≤ length out.old }
    ensures puts { Puts (error_text line behind_command) out.old at out.new result }
    ensures upper_bound { result ≤ at + reply_room }
{
    put_error(out, at, line, b"something behind the command")
}

// Adds the entry of these bytes.
fn add_bytes(merge: Merge, bytes: &[u8], out: &mut [u8], at: usize) -> Reply
    requires merge { IsMerge merge }
    requires reply_room_in_bounds { at + reply_room ≤ length out.old }
    ensures { Gives (add_bytes (merge_in merge) bytes.now) out.old at out.new result }
{
    let said = merge.add(bytes);
    Reply {
        merge: said.merge,
        at: put_answer(out, at, b"added\n", said.answer),
    }
}

// Adds the entry that a line tells.
fn add_told(merge: Merge, l: &Line, out: &mut [u8], at: usize) -> Reply
    requires merge { IsMerge merge }
    requires reply_room_in_bounds { at + reply_room ≤ length out.old }
    requires count_bound { l.now.count ≤ 225 }
    ensures { Gives (add_bytes (merge_in merge) (bytes_of (words_in l.now))) out.old at out.new result }
{
    let mut bytes = [0; 1024];
    let n = text_encoding::put_line(&mut bytes, 0, l) * 4;
    add_bytes(merge, &bytes[..n], out, at)
}

// Adds the entry that a text tells. A blank one tells none.
fn add_text(merge: Merge, line: u64, s: &[u8], out: &mut [u8], at: usize) -> Reply
    requires merge { IsMerge merge }
    requires reply_room_in_bounds { at + reply_room ≤ length out.old }
    ensures { Gives (add_text (merge_in merge) line s.now) out.old at out.new result }
{
    let mistake = match text_lines::read_line(Form::New, s) {
        Ok(Some(l)) => return add_told(merge, &l, out, at),
        Ok(None) => Mistake::PartMissing,
        Err(mistake) => mistake,
    };
    Reply {
        merge,
        at: cli_entries::put_mistake(out, at, line, Some(mistake)),
    }
}

// Adds the entry of the bytes that digits write.
fn add_digits(merge: Merge, line: u64, s: &[u8], out: &mut [u8], at: usize) -> Reply
    requires merge { IsMerge merge }
    requires reply_room_in_bounds { at + reply_room ≤ length out.old }
    requires s_len_bound { length s.now ≤ 4096 }
    ensures { Gives (add_digits (merge_in merge) line s.now) out.old at out.new result }
{
    if !digits::are_digits(s) {
        return Reply {
            merge,
            at: put_error(out, at, line, b"something that is no hexadecimal digit"),
        };
    }
    if s.len() % 2 != 0 {
        return Reply {
            merge,
            at: put_error(out, at, line, b"an odd number of digits"),
        };
    }
    let mut bytes = [0; 2048];
    let n = digits::put_bytes(s, &mut bytes);
    add_bytes(merge, &bytes[..n], out, at)
}

// The same with blanks around.
fn add_hexadecimal(merge: Merge, line: u64, s: &[u8], out: &mut [u8], at: usize) -> Reply
    requires merge { IsMerge merge }
    requires reply_room_in_bounds { at + reply_room ≤ length out.old }
    requires s_len_bound { length s.now ≤ 4096 }
    ensures { Gives (add_hexadecimal (merge_in merge) line s.now) out.old at out.new result }
{
    let word = first_word(s);
    if !is_blank(&s[word.end..]) {
        return Reply {
            merge,
            at: put_error(out, at, line, b"something that is no hexadecimal digit"),
        };
    }
    add_digits(merge, line, &s[word.from..word.end], out, at)
}

// Looks up the number that a word writes.
fn put_looked(merge: Merge, line: u64, s: &[u8], out: &mut [u8], at: usize) -> usize
    requires merge { IsMerge merge }
    requires reply_room_in_bounds { at + reply_room ≤ length out.old }
    ensures puts { Puts (looked_text (merge_in merge) line (wanted_in s.now)) out.old at out.new result }
    ensures upper_bound { result ≤ at + reply_room }
{
    match cli_entries::entry_in(s) {
        Some(number) => put_answer(out, at, b"", merge.looked(number)),
        None => put_error(out, at, line, b"look wants the number of an entry"),
    }
}

// Closes the merge.
fn close(merge: Merge, line: u64, s: &[u8], out: &mut [u8], at: usize) -> Reply
    requires merge { IsMerge merge }
    requires reply_room_in_bounds { at + reply_room ≤ length out.old }
    ensures { Gives (close_reply (merge_in merge) line s.now) out.old at out.new result }
{
    if !is_blank(s) {
        return Reply {
            merge,
            at: put_behind(out, at, line),
        };
    }
    let said = merge.close();
    Reply {
        merge: said.merge,
        at: put_answer(out, at, b"closed\n", said.answer),
    }
}

// The text that came, or why none did.
fn put_written(text: &[u8], w: Result<usize, Refused>, out: &mut [u8], at: usize) -> usize
    requires reply_room_in_bounds { at + reply_room ≤ length out.old }
    requires text_len_bound { length text.now ≤ reply_room }
    requires length_in_bounds { IfOk w (λ n. n ≤ length text.now) }
    ensures puts { Puts (written_by w text.now) out.old at out.new result }
    ensures upper_bound { result ≤ at + reply_room }
{
    match w {
        Ok(n) => text_output::put_bytes(out, at, &text[..n]),
        Err(r) => put_refused(out, at, r),
    }
}

// The listing of a closed merge.
fn put_listing(merge: Merge, out: &mut [u8], at: usize) -> usize
    requires merge { IsMerge merge }
    requires reply_room_in_bounds { at + reply_room ≤ length out.old }
    requires closed_value { merge.closed ≡ true }
    ensures puts { Puts (listing_of (merge_in merge)) out.old at out.new result }
    ensures upper_bound { result ≤ at + reply_room }
{
    let mut text = [0; catalogue_listing::MOST_BYTES];
    let w = merge.list(&mut text);
    put_written(&text, w, out, at)
}

// The text of entries that were read.
fn put_text(entries: &[Entry], out: &mut [u8], at: usize) -> usize
    requires all { All EntryFits (map entry_in entries.now) }
    requires length_bound { length (text_of (map entry_in entries.now)) ≤ reply_room }
    requires reply_room_in_bounds { at + reply_room ≤ length out.old }
    ensures puts { Puts (text_of (map entry_in entries.now)) out.old at out.new result }
    ensures upper_bound { result ≤ at + reply_room }
{
    let mut text = [0; catalogue_listing::MOST_BYTES];
    let n = text_decoding::put_entries(entries, &mut text);
    text_output::put_bytes(out, at, &text[..n])
}

// A catalogue as text.
fn put_decoded(bytes: &[u8], out: &mut [u8], at: usize) -> usize
    requires { at + reply_room ≤ length out.old }
    ensures puts { Puts (outcome_text (read bytes.now)) out.old at out.new result }
    ensures upper_bound { result ≤ at + reply_room }
{
    match catalogue::read(bytes) {
        Ok(c) => put_text(c.list(), out, at),
        Err(r) => put_refused(out, at, r),
    }
}

// The fold of a closed merge as text.
fn put_fold(merge: Merge, out: &mut [u8], at: usize) -> usize
    requires merge { IsMerge merge }
    requires reply_room_in_bounds { at + reply_room ≤ length out.old }
    requires closed_value { merge.closed ≡ true }
    ensures puts { Puts (fold_text_of (merge_in merge)) out.old at out.new result }
    ensures upper_bound { result ≤ at + reply_room }
{
    let mut bytes = [0; Catalogue::MOST_BYTES];
    match merge.fold(&mut bytes) {
        Ok(n) => put_decoded(&bytes[..n], out, at),
        Err(r) => put_refused(out, at, r),
    }
}

// Listing or fold, if the merge is closed.
fn put_closed(merge: Merge, listing: bool, line: u64, s: &[u8], out: &mut [u8], at: usize) -> usize
    requires merge { IsMerge merge }
    requires reply_room_in_bounds { at + reply_room ≤ length out.old }
    ensures puts { Puts (closed_reply listing (merge_in merge) line s.now) out.old at out.new result }
    ensures upper_bound { result ≤ at + reply_room }
{
    if !is_blank(s) {
        return put_behind(out, at, line);
    }
    if !merge.closed {
        return put_error(out, at, line, b"the merge is not closed");
    }
    if listing {
        return put_listing(merge, out, at);
    }
    put_fold(merge, out, at)
}

// What the command of a line asks for, s being what stands behind it.
fn carry_out(
    merge: Merge,
    command: Command,
    line: u64,
    s: &[u8],
    out: &mut [u8],
    at: usize,
) -> Reply
    requires merge { IsMerge merge }
    requires reply_room_in_bounds { at + reply_room ≤ length out.old }
    requires s_len_bound { length s.now ≤ 4096 }
    ensures { Gives (command_reply (merge_in merge) command line s.now) out.old at out.new result }
{
    match command {
        Command::Add => add_text(merge, line, s, out, at),
        Command::Bytes => add_hexadecimal(merge, line, s, out, at),
        Command::Look => Reply {
            merge,
            at: put_looked(merge, line, s, out, at),
        },
        Command::Close => close(merge, line, s, out, at),
        Command::Listing => Reply {
            merge,
            at: put_closed(merge, true, line, s, out, at),
        },
        Command::Fold => Reply {
            merge,
            at: put_closed(merge, false, line, s, out, at),
        },
        Command::Unknown => Reply {
            merge,
            at: put_error(out, at, line, b"no such command"),
        },
    }
}

// Answers a line without its comment: nothing where it holds nothing but blanks.
fn answer_text(merge: Merge, s: &[u8], line: u64, out: &mut [u8], at: usize) -> Reply
    requires merge { IsMerge merge }
    requires reply_room_in_bounds { at + reply_room ≤ length out.old }
    requires s_len_bound { length s.now ≤ 4096 }
    ensures { Gives (content_reply (merge_in merge) line s.now) out.old at out.new result }
{
    if is_blank(s) {
        return Reply { merge, at };
    }
    let asked = read_command(s);
    carry_out(merge, asked.command, line, &s[asked.length..], out, at)
}

// Answers a line. What stands behind a `#` is a comment.
pub fn answer(merge: Merge, s: &[u8], line: u64, out: &mut [u8], at: usize) -> Reply
    requires merge { IsMerge merge }
    requires reply_room_in_bounds { at + reply_room ≤ length out.old }
    ensures { Gives (answer (merge_in merge) line s.now) out.old at out.new result }
{
    if MOST_LINE < s.len() {
        return Reply {
            merge,
            at: put_error(out, at, line, b"longer than 4096 bytes"),
        };
    }
    let n = text_lines::length_before(s, b'#');
    answer_text(merge, &s[..n], line, out, at)
}
