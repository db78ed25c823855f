// Membership: the basis is reduced, its lattice made, and the target tested on it without a search.
ghost use Rattle.std.specs.Prelude.{◌≡◌};
ghost use Rattle.lattices.specs.Answer.{membership_of};
ghost use Rattle.engine.specs.Answers.{membership_in};

use super::{nothing, stepped};
use refusals::Refusal;

// Membership: d vectors of m coordinates each, vector by vector, and a target of m coordinates.
pub fn membership(numbers: &[i64], d: usize, m: usize, target: &[i64]) -> Result<bool, Refusal>
    ensures { membership_in result ≡ membership_of (record { numbers = numbers.entry.now; d = d; m = m; target = target.now }) }
{
    let mut g = [[0; 4]; 4];
    let mut w = nothing();
    stepped(numbers, d, m, &mut g, &mut w)?;
    let t = input_checks::target(target, m)?;
    let squares = gram_matrix::diagonal(&g);
    let l = lattice_membership::lattice_of(w.vectors, d, m, squares, w.passes);
    Ok(lattice_membership::member(&l, &t))
}
