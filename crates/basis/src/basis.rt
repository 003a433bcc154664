// The basis rings of a table, by climbing from the ends of each bond to the first atoms of their fragments.
ghost use Rattle.definitions.specs.Table.{table};
ghost use Rattle.basis.specs.Held.{BasisOf};

use super::climb::Fragments;
use answers::{BASIS_WORDS, Refusal};
use sets::WordSet;
use table::{accept, ends_of};

// The basis rings of a table in order of closure bonds: the first count sets of a list.
#[derive(Clone, Copy)]
pub struct Basis {
    pub rings: [u64; BASIS_WORDS],
    pub count: usize,
}

// The basis rings of a table. The bonds are tried in order: one between two fragments makes them one, and one within a fragment, with the
// ways from its ends to the first atom, is a basis ring.
pub fn basis_of(atoms: u64, bonds: &[u8]) -> Result<Basis, Refusal>
    ensures { BasisOf (table atoms bonds.now) result }
{
    accept(atoms, bonds)?;
    let mut fragments = Fragments::apart();
    let mut basis = Basis {
        rings: [0; BASIS_WORDS],
        count: 0,
    };
    for k in 0..bonds.len() / 2 {
        let ends = ends_of(bonds, k);
        let one = fragments.climb_from(ends.tail);
        fragments.settle(ends.tail, one);
        let other = fragments.climb_from(ends.head);
        fragments.settle(ends.head, other);
        let round = one.bonds.sum(other.bonds).with(k);
        if one.atom == other.atom {
            let count = basis.count;
            round.put_at(&mut basis.rings, count);
            basis.count = count + 1;
        } else {
            fragments.join(one.atom, other.atom, round);
        }
    }
    Ok(basis)
}
