// The library's face: every entry in one place, for Rattle programs; `foliocrane_c` exports them for C and Rust. Each takes any table, an atom
// count and two bytes a bond, and tells as numbers what the entry tells that it calls: number, count and every element of what is lent, for every
// input, and what is only read is as it was. What is demanded of a call stands in specs/, and proofs/ has it of these contracts.
#![tactic(auto)]

ghost use Rattle.std.specs.Prelude.{◌≡◌, [], length};
ghost use Rattle.lookup.specs.Lookup as lookups;
ghost use Rattle.definitions.specs.Table.{table as table_of, refusal};
ghost use Rattle.definitions.specs.Basis.{basis_rings};
ghost use Rattle.definitions.specs.Assembly.{assemblies};
ghost use Rattle.definitions.specs.AllRings.{all_rings};
ghost use Rattle.definitions.specs.Smallest.{smallest_basis};
ghost use Rattle.definitions.specs.Reduced.{reduced_basis};
ghost use Rattle.definitions.specs.Walk.{walk_atoms, walk_bonds};
ghost use Rattle.definitions.specs.Label.{label_of, sidecar_of};
ghost use Rattle.definitions.specs.Answer.{outcome_of, counted, written, written_sets, written_both, refusal_of_rings, refusal_of_walk};

use answers::Answer;
use sets::BondSet;

// The table check: 0 and the number of basis rings, or a refusal.
#[unsafe(no_mangle)]
pub extern "C" fn foliocrane_check(atoms: u64, bonds: &[u8]) -> Answer
    ensures answer { outcome_of result.number result.count [] ≡ counted (refusal (table_of atoms bonds.now)) (length (basis_rings (table_of atoms bonds.now))) }
    ensures read { bonds.exit.now ≡ bonds.entry.now }
{
    basis::check(atoms, bonds).into()
}

// The basis rings, in order of their closure bonds, as words.
#[unsafe(no_mangle)]
pub extern "C" fn foliocrane_basis_rings(atoms: u64, bonds: &[u8], out: &mut [u64]) -> Answer
    ensures answer { outcome_of result.number result.count out.new ≡ written_sets (refusal (table_of atoms bonds.now)) (basis_rings (table_of atoms bonds.now)) out.old }
    ensures read { bonds.exit.now ≡ bonds.entry.now }
{
    basis::basis_rings(atoms, bonds, out).into()
}

// The assembly of each basis ring, one byte a ring.
#[unsafe(no_mangle)]
pub extern "C" fn foliocrane_assemblies(atoms: u64, bonds: &[u8], out: &mut [u8]) -> Answer
    ensures answer { outcome_of result.number result.count out.new ≡ written (refusal (table_of atoms bonds.now)) (assemblies (table_of atoms bonds.now)) out.old }
    ensures read { bonds.exit.now ≡ bonds.entry.now }
{
    basis::assemblies(atoms, bonds, out).into()
}

// All rings, as words: the smaller ring first, and of two with one size the lower word.
#[unsafe(no_mangle)]
pub extern "C" fn foliocrane_all_rings(atoms: u64, bonds: &[u8], out: &mut [u64]) -> Answer
    ensures answer { outcome_of result.number result.count out.new ≡ written_sets (refusal_of_rings (table_of atoms bonds.now)) (all_rings (table_of atoms bonds.now)) out.old }
    ensures read { bonds.exit.now ≡ bonds.entry.now }
{
    lists::all_rings(atoms, bonds, out).into()
}

// The smallest basis, as taken from the list of all rings, as words.
#[unsafe(no_mangle)]
pub extern "C" fn foliocrane_smallest_basis(atoms: u64, bonds: &[u8], out: &mut [u64]) -> Answer
    ensures answer { outcome_of result.number result.count out.new ≡ written_sets (refusal_of_rings (table_of atoms bonds.now)) (smallest_basis (table_of atoms bonds.now)) out.old }
    ensures read { bonds.exit.now ≡ bonds.entry.now }
{
    lists::smallest_basis(atoms, bonds, out).into()
}

// The reduced basis of 000, as words. It depends on the numbering, and never enters a label.
#[unsafe(no_mangle)]
pub extern "C" fn foliocrane_reduced_basis(atoms: u64, bonds: &[u8], out: &mut [u64]) -> Answer
    ensures answer { outcome_of result.number result.count out.new ≡ written_sets (refusal (table_of atoms bonds.now)) (reduced_basis (table_of atoms bonds.now)) out.old }
    ensures read { bonds.exit.now ≡ bonds.entry.now }
{
    reduced::reduced_basis(atoms, bonds, out).into()
}

// A ring in walking order, its atoms and its bonds, a byte each: from the lower atom of its lowest bond over that bond and on until one is
// back. The ring is given by its word.
#[unsafe(no_mangle)]
pub extern "C" fn foliocrane_ring_walk(
    atoms: u64,
    bonds: &[u8],
    set: u64,
    ring_atoms: &mut [u8],
    ring_bonds: &mut [u8],
) -> Answer
    ensures answer { outcome_of result.number result.count (ring_atoms.new, ring_bonds.new) ≡ written_both (refusal_of_walk (table_of atoms bonds.now) set) (walk_atoms (table_of atoms bonds.now) set, walk_bonds (table_of atoms bonds.now) set) (ring_atoms.old, ring_bonds.old) }
    ensures read { bonds.exit.now ≡ bonds.entry.now }
{
    let ring = BondSet::of_words([set]);
    walk::ring_walk(atoms, bonds, ring, ring_atoms, ring_bonds).into()
}

// The label.
#[unsafe(no_mangle)]
pub extern "C" fn foliocrane_label(atoms: u64, bonds: &[u8], out: &mut [u8]) -> Answer
    ensures answer { outcome_of result.number result.count out.new ≡ written (refusal_of_rings (table_of atoms bonds.now)) (label_of (table_of atoms bonds.now)) out.old }
    ensures read { bonds.exit.now ≡ bonds.entry.now }
{
    label::label(atoms, bonds, out).into()
}

// The sidecar: the reduced basis in a field of its own.
#[unsafe(no_mangle)]
pub extern "C" fn foliocrane_sidecar(atoms: u64, bonds: &[u8], out: &mut [u8]) -> Answer
    ensures answer { outcome_of result.number result.count out.new ≡ written (refusal (table_of atoms bonds.now)) (sidecar_of (table_of atoms bonds.now)) out.old }
    ensures read { bonds.exit.now ≡ bonds.entry.now }
{
    sidecar::sidecar(atoms, bonds, out).into()
}

// The part of the first list, or else of the second, whose sets have a size. It hands back a part of a lent list, so it is for Rattle alone.
pub fn of_size<'a>(first: &'a [u64], second: &'a [u64], size: u64) -> &'a [u64]
    ensures part { lookups.lent result ≡ lookups.of_size size (lookups.lent first.entry) (lookups.lent second.entry) }
    ensures read { (first.exit.now ≡ first.entry.now) × (second.exit.now ≡ second.entry.now) }
{
    lookup::of_size(first, second, size)
}
