// The listing of a catalogue: document 01's text, as bytes of a lent output.
#![tactic(auto)]

ghost use Rattle.std.specs.Prelude.{◌≡◌, map, IfOk};
ghost use Rattle.text_output.specs.Counts.{IsPrefixLen};
ghost use Rattle.catalogue_rules.specs.Catalogue.{accepted};
ghost use Rattle.catalogue_rules.specs.Output.{output_by};
ghost use Rattle.catalogue_records.specs.EntriesIn.{entry_in, output_in};
ghost use Rattle.catalogue_standing.specs.ReducedEntries.{WasRead};
ghost use Rattle.fold_rules.specs.Services.{listing_text, list_of};

use catalogue_records::{Catalogue, Entry};
use refusals::{Refusal, Refused};

mod entries;
mod lines;

// No listing takes more bytes: a line for each entry, one for each of its vectors, and the first. Nor does a catalogue's own text.
pub const MOST_BYTES: usize = Catalogue::MOST_ENTRIES * (42 + 4 * (row_operations::WIDTH * 7 + 2))
    + 8;

// The listing of entries that were read: 16 where the text does not fit; the output is left as it was then. The last clause follows from the
// other; with it a caller can cut the text out.
pub fn list_read(entries: &[Entry], out: &mut [u8]) -> Result<usize, Refused>
    requires { WasRead entries.now }
    ensures value { output_in result out.new ≡ output_by listing_text (accepted (map entry_in entries.now)) out.old }
    ensures prefix_len { IfOk result (λ n. IsPrefixLen n out.new) }
{
    let mut text = [0; MOST_BYTES];
    let n = entries::put_catalogue(&mut text, entries);
    if out.len() < n {
        return Err(Refused {
            refusal: Refusal::OutputTooShort,
            place: 0,
        });
    }
    Ok(text_output::put_bytes(out, 0, &text[..n]))
}

// The listing of catalogue bytes: the catalogue's own refusals come first.
pub fn list(bytes: &[u8], out: &mut [u8]) -> Result<usize, Refused>
    ensures value { output_in result out.new ≡ list_of bytes.now out.old }
    ensures prefix_len { IfOk result (λ n. IsPrefixLen n out.new) }
{
    let c = catalogue_reader::read(bytes)?;
    list_read(c.list(), out)
}
