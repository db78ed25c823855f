// Whole entries.
ghost use Rattle.std.specs.Prelude.{◌≡◌};
ghost use Rattle.lattices.specs.Volume.{is_dependent};
ghost use Rattle.catalogue_rules.specs.Form.{EntryFits};
ghost use Rattle.catalogue_records.specs.EntriesIn.{entry_in};

use catalogue_records::Entry;

// Whether the vectors of an entry are dependent.
pub fn dependent(e: &Entry) -> bool
    requires { EntryFits (entry_in e.now) }
    ensures { result ≡ is_dependent e.now.m (entry_in e.now).vectors }
{
    let b = input_checks::basis(&e.coordinates[..e.d * e.m], e.d, e.m);
    input_checks::dependent(&b, e.d)
}
