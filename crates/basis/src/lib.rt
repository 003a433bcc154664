// The basis rings of a table and the assemblies that they form; the table check, which counts the basis rings.
#![tactic(auto)]

mod assembly;
mod basis;
mod climb;
mod found;

ghost use Rattle.std.specs.Prelude.{◌≡◌, [], length};
ghost use Rattle.definitions.specs.Table.{table, refusal};
ghost use Rattle.definitions.specs.Basis.{basis_rings};
ghost use Rattle.definitions.specs.Assembly as spec;
ghost use Rattle.definitions.specs.Answer.{counted, written, written_sets};
ghost use Rattle.answers.specs.Told.{told};

use answers::{Refusal, write_sets};
pub use assembly::assemblies_of;
use assembly::write_assemblies;
pub use basis::{Basis, basis_of};
pub use found::Assemblies;

// The table check: the number of basis rings.
pub fn check(atoms: u64, bonds: &[u8]) -> Result<usize, Refusal>
    ensures answer { told result [] ≡ counted (refusal (table atoms bonds.now)) (length (basis_rings (table atoms bonds.now))) }
    ensures read { bonds.exit.now ≡ bonds.entry.now }
{
    let basis = basis_of(atoms, bonds)?;
    Ok(basis.count)
}

// The basis rings: sets as words, in order of closure bonds.
pub fn basis_rings(atoms: u64, bonds: &[u8], out: &mut [u64]) -> Result<usize, Refusal>
    ensures answer { told result out.new ≡ written_sets (refusal (table atoms bonds.now)) (basis_rings (table atoms bonds.now)) out.old }
    ensures read { bonds.exit.now ≡ bonds.entry.now }
{
    let basis = basis_of(atoms, bonds)?;
    write_sets(&basis.rings, basis.count, out)
}

// The assemblies: for each basis ring the number of its assembly, in one byte.
pub fn assemblies(atoms: u64, bonds: &[u8], out: &mut [u8]) -> Result<usize, Refusal>
    ensures answer { told result out.new ≡ written (refusal (table atoms bonds.now)) (spec.assemblies (table atoms bonds.now)) out.old }
    ensures read { bonds.exit.now ≡ bonds.entry.now }
{
    let basis = basis_of(atoms, bonds)?;
    let rings = basis.count;
    if out.len() < rings {
        return Err(Refusal::Room);
    }
    let found = assemblies_of(&basis.rings, rings);
    write_assemblies(&found, out);
    Ok(rings)
}
