// The refusals 1 to 6 of a table. A test is through with all bonds before the next number is given.
ghost use Rattle.std.specs.Prelude.{◌≡◌, false, ℕ, ◌/◌, ◌<◌, length};
ghost use Rattle.definitions.specs.Search.{some?};
ghost use Rattle.definitions.specs.Table as spec;
ghost use Rattle.table.specs.Ends.{bonds_alone, Fitting};
ghost use Rattle.answers.specs.Told.{code_of};
ghost use Rattle.table.specs.Rows.{Rowed, RowsFilled, TableTested};

use super::ends::ends_of;
use answers::{ATOM_WORDS, MAX_ATOMS, MAX_BONDS, Refusal};
use sets::{BondSet, WordSet};

// Has bond k an end that is the atom count or higher?
fn bad_end(atoms: u64, bonds: &[u8], k: usize) -> bool
    requires { k < length bonds.now / 2 }
    ensures { result ≡ spec.bad_end? (spec.table atoms bonds.now) k }
{
    (atoms <= bonds[2 * k] as u64) | (atoms <= bonds[2 * k + 1] as u64)
}

// Are the two ends of bond k one atom?
fn self_bond(bonds: &[u8], k: usize) -> bool
    requires { k < length bonds.now / 2 }
    ensures { result ≡ spec.self_bond? (bonds_alone bonds.now) k }
{
    let ends = ends_of(bonds, k);
    ends.tail == ends.head
}

// What may be wrong with the ends of bonds: some bond has one that is the atom count or higher; the two of some bond are one atom.
#[derive(Clone, Copy)]
struct WrongEnds {
    outside: bool,
    same: bool,
}

// Both are told in one pass over all bonds.
fn wrong_ends(atoms: u64, bonds: &[u8]) -> WrongEnds
    ensures outside { result.outside ≡ some? (length bonds.now / 2) (spec.bad_end? (spec.table atoms bonds.now)) }
    ensures same { result.same ≡ some? (length bonds.now / 2) (spec.self_bond? (bonds_alone bonds.now)) }
{
    let mut outside = false;
    let mut same = false;
    for k in 0..bonds.len() / 2 {
        outside = outside | bad_end(atoms, bonds, k);
        same = same | self_bond(bonds, k);
    }
    WrongEnds { outside, same }
}

// Fills the rows, empty so far, bond by bond, up to one that joins a pair of atoms for the second time: its two atoms are bonded already, so
// that bond is found in the rows of both. No bond joins an atom to itself here. The rows are by all bonds where no pair is bonded twice.
fn fill_rows(bonds: &[u8], rows: &mut [u64; ATOM_WORDS]) -> Result<(), Refusal>
    requires { Fitting bonds.now × ((k : ℕ) → k < length bonds.now / 2 → spec.self_bond? (bonds_alone bonds.now) k ≡ false) × Rowed bonds.now 0 rows.old }
    ensures { RowsFilled bonds.now result rows.new }
{
    for k in 0..bonds.len() / 2 {
        let ends = ends_of(bonds, k);
        let a = ends.tail;
        let b = ends.head;
        let first = BondSet::at(rows, a);
        let other = BondSet::at(rows, b);
        if first.meets(other) {
            return Err(Refusal::Twice);
        }
        first.with(k).put_at(rows, a);
        other.with(k).put_at(rows, b);
    }
    Ok(())
}

// Tests a table, and fills the rows, empty so far, by all bonds of one that is accepted.
pub(crate) fn try_table(
    atoms: u64,
    bonds: &[u8],
    rows: &mut [u64; ATOM_WORDS],
) -> Result<(), Refusal>
    requires { Rowed bonds.now 0 rows.old }
    ensures { TableTested (spec.table atoms bonds.now) result rows.new }
{
    if bonds.len() % 2 == 1 {
        return Err(Refusal::Odd);
    }
    if atoms == 0 {
        return Err(Refusal::Atoms);
    }
    if atoms > MAX_ATOMS as u64 {
        return Err(Refusal::Atoms);
    }
    if bonds.len() / 2 > MAX_BONDS {
        return Err(Refusal::Bonds);
    }
    let ends = wrong_ends(atoms, bonds);
    if ends.outside {
        return Err(Refusal::End);
    }
    if ends.same {
        return Err(Refusal::SelfBond);
    }
    fill_rows(bonds, rows)
}

// Tests a table: the first of the refusals 1 to 6 that is true of it, if one is.
pub fn accept(atoms: u64, bonds: &[u8]) -> Result<(), Refusal>
    ensures { code_of result ≡ spec.refusal (spec.table atoms bonds.now) }
{
    let mut rows = [0u64; ATOM_WORDS];
    try_table(atoms, bonds, &mut rows)
}
