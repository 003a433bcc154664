// Round a ring by recursion: at each atom over the bond of the ring by which one has not come, with one bond less to go.
ghost use Rattle.std.specs.Prelude.{◌≡◌, true, Some, None, cond, ◌/◌, ◌<◌, length, eqb};
ghost use Rattle.sets.specs.Bond.{bits};
ghost use Rattle.definitions.specs.Table.{max_atoms, bonds};
ghost use Rattle.definitions.specs.Ring.{degree};
ghost use Rattle.definitions.specs.Walk as spec;
ghost use Rattle.table.specs.Ends.{Fitting};
ghost use Rattle.table.specs.Rows.{Rowed};
ghost use Rattle.walking.specs.Closing.{closes?, walks?};

use answers::{ATOM_WORDS, MAX_BONDS};
use sets::{BondSet, WordSet};
use table::ends_of;

// The atoms and the bonds of a walk, in order from its start on.
#[derive(Drop)]
pub(crate) struct Walk {
    pub atoms: [u8; MAX_BONDS],
    pub bonds: [u8; MAX_BONDS],
}

// Where a walk stands: it has started at an atom and gone over some bonds, some are left to go, and it leaves an atom by a bond.
#[derive(Clone, Copy)]
pub(crate) struct Place {
    pub start: usize,
    pub gone: usize,
    pub left: usize,
    pub atom: usize,
    pub bond: usize,
}

// A set of bonds that is to be a ring, with the bonds of an accepted table and, for each atom, those that meet it.
#[derive(Clone, Copy)]
pub(crate) struct Ring<'a> {
    pub bonds: &'a [u8],
    pub rows: &'a [u64; ATOM_WORDS],
    pub set: BondSet,
    ghost fits: { Fitting bonds.now },
    ghost rowed: { Rowed bonds.now (length bonds.now / 2) rows.now },
}

impl Ring<'_> {
    ghost use Rattle.walk.specs.Going.{table_of, Standing, noted};

    // The atom of bond k that is not a.
    fn other_atom(&self, a: usize, k: usize) -> usize
        requires { k < bonds (table_of self.now) }
        ensures { result ≡ spec.other_atom (table_of self.now) k a }
    {
        let ends = ends_of(self.bonds, k);
        if ends.tail == a { ends.head } else { ends.tail }
    }

    // The bond of the ring beside bond k at atom a, where the atom has just two bonds of the ring.
    fn other_bond(&self, a: usize, k: usize) -> Option<usize>
        requires { a < max_atoms }
        ensures { result ≡ cond (eqb (degree (table_of self.now) (bits self.now.set) a) 2) (Some (spec.other_bond (table_of self.now) (bits self.now.set) a k)) None }
    {
        let rows = self.rows;
        let here = BondSet::at(rows, a).shared(self.set);
        if here.size() != 2 {
            return None;
        }
        Some(here.without(k).next(0))
    }

    // Is one back at the start with the last of the bonds left and not before, and has each atom on the way just two bonds of the ring? Each
    // place is noted before the next is looked for.
    fn goes_round(&self, at: Place, walk: &mut Walk) -> bool
        requires { Standing self.now at }
        ensures told { result ≡ closes? (table_of self.now) (bits self.now.set) at.start at.left (at.atom, at.bond) }
        ensures noted { result ≡ true → walk.new ≡ noted walk.old at.gone (spec.walk_from (table_of self.now) (bits self.now.set) at.left (at.atom, at.bond)) }
    {
        if at.left == 0 {
            return false;
        }
        walk.atoms[at.gone] = at.atom as u8;
        walk.bonds[at.gone] = at.bond as u8;
        let left = at.left - 1;
        let atom = self.other_atom(at.atom, at.bond);
        let Some(next) = self.other_bond(atom, at.bond) else {
            return false;
        };
        if atom == at.start {
            return left == 0;
        }
        let onward = Place {
            gone: at.gone + 1,
            left,
            atom,
            bond: next,
            ..at
        };
        self.goes_round(onward, walk)
    }

    // Does the walk that begins with the lowest bond, at the lower of its atoms, come round after as many bonds as the ring has? It is noted
    // from its start on.
    pub(crate) fn comes_round(&self, walk: &mut Walk) -> bool
        ensures told { result ≡ walks? (table_of self.now) (bits self.now.set) }
        ensures noted { result ≡ true → walk.new ≡ noted walk.old 0 (spec.walk_of (table_of self.now) (bits self.now.set)) }
    {
        let first = self.set.next(0);
        if self.bonds.len() / 2 <= first {
            return false;
        }
        let ends = ends_of(self.bonds, first);
        let start = ends.tail.min(ends.head);
        let at = Place {
            start,
            gone: 0,
            left: self.set.size(),
            atom: start,
            bond: first,
        };
        self.goes_round(at, walk)
    }
}
