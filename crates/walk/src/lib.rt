// A ring of a table in walking order: its atoms and its bonds.
#![tactic(auto)]

mod round;

ghost use Rattle.std.specs.Prelude.{◌≡◌, cond};
ghost use Rattle.sets.specs.Bond.{bits};
ghost use Rattle.definitions.specs.Table as spec;
ghost use Rattle.definitions.specs.Walk.{walk_atoms, walk_bonds};
ghost use Rattle.definitions.specs.Answer.{refusal_of_walk, written_both};
ghost use Rattle.answers.specs.Told.{told};
ghost use Rattle.walking.specs.Closing.{walks?};
ghost use Rattle.walk.specs.Going.{table_of};

use answers::{MAX_BONDS, Refusal};
use round::{Ring, Walk};
use sets::{BondSet, WordSet};

// Writes the walk round a ring of an accepted table: 9 where one does not come round, then 8 where a list is too short.
fn write_walk(
    ring: &Ring<'_>,
    ring_atoms: &mut [u8],
    ring_bonds: &mut [u8],
) -> Result<usize, Refusal>
    ensures { told result (ring_atoms.new, ring_bonds.new) ≡ written_both (cond (walks? (table_of ring.now) (bits ring.now.set)) 0 spec.NOTRING) (walk_atoms (table_of ring.now) (bits ring.now.set), walk_bonds (table_of ring.now) (bits ring.now.set)) (ring_atoms.old, ring_bonds.old) }
{
    let mut walk = Walk {
        atoms: [0; MAX_BONDS],
        bonds: [0; MAX_BONDS],
    };
    let closes = ring.comes_round(&mut walk);
    let size = ring.set.size();
    let short = ring_atoms.len() < size || ring_bonds.len() < size;
    if !closes {
        return Err(Refusal::NotRing);
    }
    if short {
        return Err(Refusal::Room);
    }
    ring_atoms[..size].copy_from_slice(&walk.atoms[..size]);
    ring_bonds[..size].copy_from_slice(&walk.bonds[..size]);
    Ok(size)
}

// The atoms and the bonds of a ring as one meets them going round, one byte each; the refusals of a table, then 9, then 8.
pub fn ring_walk(
    atoms: u64,
    bonds: &[u8],
    set: BondSet,
    ring_atoms: &mut [u8],
    ring_bonds: &mut [u8],
) -> Result<usize, Refusal>
    ensures answer { told result (ring_atoms.new, ring_bonds.new) ≡ written_both (refusal_of_walk (spec.table atoms bonds.now) (bits set)) (walk_atoms (spec.table atoms bonds.now) (bits set), walk_bonds (spec.table atoms bonds.now) (bits set)) (ring_atoms.old, ring_bonds.old) }
    ensures read { bonds.exit.now ≡ bonds.entry.now }
{
    let rows = table::rows_of(atoms, bonds)?;
    let ring = Ring {
        bonds,
        rows: &rows,
        set,
    };
    write_walk(&ring, ring_atoms, ring_bonds)
}
