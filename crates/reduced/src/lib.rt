// The reduced basis: the basis rings of each assembly, swept until a sweep changes nothing.
#![tactic(auto)]

mod assembly;
mod sweep;

ghost use Rattle.std.specs.Prelude.{◌≡◌};
ghost use Rattle.definitions.specs.Table.{table, refusal};
ghost use Rattle.definitions.specs.Reduced.{reduced_basis};
ghost use Rattle.definitions.specs.Answer.{written_sets};
ghost use Rattle.answers.specs.Told.{told};
ghost use Rattle.reduced.specs.Reduces.{Reduces};

use answers::{BASIS_WORDS, Refusal, write_sets};
use assembly::reduce_all;

// The reduced sets of a table: the first count sets of a list.
#[derive(Clone, Copy)]
pub struct Reduced {
    pub sets: [u64; BASIS_WORDS],
    pub count: usize,
}

// The reduced sets of a table, assemblies in order.
pub fn reduce(atoms: u64, bonds: &[u8]) -> Result<Reduced, Refusal>
    ensures { Reduces (table atoms bonds.now) result }
{
    let basis = basis::basis_of(atoms, bonds)?;
    let assemblies = basis::assemblies_of(&basis.rings, basis.count);
    let mut sets = [0u64; BASIS_WORDS];
    reduce_all(&basis.rings, &assemblies, &mut sets);
    Ok(Reduced {
        sets,
        count: basis.count,
    })
}

// The reduced basis: sets as words, assemblies in order; the refusals of a table, then 8.
pub fn reduced_basis(atoms: u64, bonds: &[u8], out: &mut [u64]) -> Result<usize, Refusal>
    ensures answer { told result out.new ≡ written_sets (refusal (table atoms bonds.now)) (reduced_basis (table atoms bonds.now)) out.old }
    ensures read { bonds.exit.now ≡ bonds.entry.now }
{
    let found = reduce(atoms, bonds)?;
    write_sets(&found.sets, found.count, out)
}
