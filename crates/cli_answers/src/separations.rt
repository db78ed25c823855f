// What separates two entries, as a line.
ghost use Rattle.std.specs.Prelude.{◌+◌, ◌≤◌, length};
ghost use Rattle.text_output.specs.Puts.{Puts};
ghost use Rattle.cli_answers.specs.Answers.{outside_text, separation_text};
ghost use Rattle.cli_answers.specs.Room.{outside_room, separation_room};

use separation_answers::Separation;

// A vector outside the other entry's lattice: the word for the entry that has it, its position, the squared distance.
fn put_outside(out: &mut [u8], at: usize, word: &[u8], position: u32, square: i64) -> usize
    requires { at + outside_room + length word.now ≤ length out.old }
    ensures puts { Puts (outside_text word.now position square) out.old at out.new result }
    ensures upper_bound { result ≤ at + outside_room + length word.now }
{
    let first = text_output::put_bytes(out, at, word);
    let second = text_output::put_byte(out, first, b' ');
    let third = cli_output::put_number(out, second, u64::from(position));
    let fourth = cli_output::put_field(out, third, square);
    text_output::put_byte(out, fourth, b'\n')
}

// The answer to what separates two entries.
pub fn put_separation(out: &mut [u8], at: usize, s: Separation) -> usize
    requires { at + separation_room ≤ length out.old }
    ensures puts { Puts (separation_text s) out.old at out.new result }
    ensures upper_bound { result ≤ at + separation_room }
{
    match s {
        Separation::Same => text_output::put_bytes(out, at, b"same\n"),
        Separation::DifferentM => text_output::put_bytes(out, at, b"different m\n"),
        Separation::DifferentD => text_output::put_bytes(out, at, b"different d\n"),
        Separation::FirstOutside(position, square) => {
            put_outside(out, at, b"first", position, square)
        }
        Separation::SecondOutside(position, square) => {
            put_outside(out, at, b"second", position, square)
        }
    }
}
