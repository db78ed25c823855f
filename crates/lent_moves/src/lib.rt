// The moves between the forms with their answers written to lent numbers; include/raghymtos.h gives their order.
#![tactic(auto)]

ghost use Rattle.std.specs.Prelude.{◌≡◌, leb, length};
ghost use Rattle.catalogue_rules.specs.Catalogue.{old, new};
ghost use Rattle.catalogue_rules.specs.Moving.{move_of};
ghost use Rattle.lent_numbers.specs.Layout.{layout_output, written, beside};

// How many numbers the answer of a writing takes.
const WRITING: usize = 3;

// A catalogue of the old form, written in the new form to `out`. The answer is written to the first 3 numbers of `answer`; where that is
// shorter, both stay as they are.
pub fn new_form(bytes: &[u8], out: &mut [u8], answer: &mut [i64]) -> bool
    ensures value { result ≡ leb 3 (length answer.old) }
    ensures answer_after { answer.new ≡ written answer.old 3 (layout_output (move_of new bytes.now out.old)) }
    ensures out_after { out.new ≡ beside answer.old 3 out.old (move_of new bytes.now out.old).lent }
{
    if answer.len() < WRITING {
        return false;
    }
    let n = catalogue::new_form(bytes, out);
    lent_numbers::put_writing(answer, n);
    true
}

// A catalogue of the new form, written in the old form to `out`. The answer is written to the first 3 numbers of `answer`; where that is
// shorter, both stay as they are.
pub fn old_form(bytes: &[u8], out: &mut [u8], answer: &mut [i64]) -> bool
    ensures value { result ≡ leb 3 (length answer.old) }
    ensures answer_after { answer.new ≡ written answer.old 3 (layout_output (move_of old bytes.now out.old)) }
    ensures out_after { out.new ≡ beside answer.old 3 out.old (move_of old bytes.now out.old).lent }
{
    if answer.len() < WRITING {
        return false;
    }
    let o = catalogue::old_form(bytes, out);
    lent_numbers::put_writing(answer, o);
    true
}
