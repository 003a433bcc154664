// The fragments of the bonds tried so far. Each atom leads to itself or to a lower atom of its fragment, at last to the first of all,
// and has the set of bonds of a way there: in a sum of ways the bonds gone over twice fall out.
ghost use Rattle.std.specs.Prelude.{◌≡◌, ℕ, ◌≤◌, ◌<◌, min, max, get_or, replicate, set};
ghost use Rattle.sets.specs.Bond.{bits};
ghost use Rattle.sets.specs.Lists.{sets_in};
ghost use Rattle.definitions.specs.Table.{max_atoms};
ghost use Rattle.basis.specs.Climbing.{Falling, Climbs};

use answers::{ATOM_WORDS, MAX_ATOMS};
use sets::{BondSet, WordSet};
use std::array;

// Where an atom leads at last, and the sum of the ways.
#[derive(Clone, Copy)]
pub(crate) struct Climb {
    pub atom: usize,
    pub bonds: BondSet,
}

// Where each atom leads, and the way there.
#[derive(Drop)]
pub(crate) struct Fragments {
    pub lower: [usize; MAX_ATOMS],
    pub ways: [u64; ATOM_WORDS],
    ghost falling: { Falling lower },
}

impl Fragments {
    // Each atom leads to itself, by no bond.
    pub fn apart() -> Fragments
        ensures own { (a : ℕ) → a < max_atoms → get_or result.lower a 0 ≡ a }
        ensures ways { sets_in result.ways ≡ replicate max_atoms 0 }
    {
        Fragments {
            lower: array::from_fn(|a| a),
            ways: [0; ATOM_WORDS],
        }
    }

    // From an atom to the first atom of its fragment.
    pub fn climb_from(&self, atom: usize) -> Climb
        requires { atom < max_atoms }
        ensures { Climbs self.now.lower (sets_in self.now.ways) atom result.atom (bits result.bonds) }
    {
        let mut a = atom;
        let mut bonds = BondSet::EMPTY;
        while self.lower[a] < a {
            bonds = bonds.sum(BondSet::at(&self.ways, a));
            a = self.lower[a];
        }
        Climb { atom: a, bonds }
    }

    // An atom leads straight to where the climb from it came, so that the next climb from there is short.
    pub fn settle(&mut self, atom: usize, climb: Climb)
        requires { (climb.atom ≤ atom) × (atom < max_atoms) }
        ensures lower { self.new.lower ≡ set self.old.lower atom climb.atom }
        ensures ways { sets_in self.new.ways ≡ set (sets_in self.old.ways) atom (bits climb.bonds) }
    {
        self.lower[atom] = climb.atom;
        climb.bonds.put_at(&mut self.ways, atom);
    }

    // Two fragments made one, given by their first atoms: the larger leads to the smaller by these bonds.
    pub fn join(&mut self, a: usize, b: usize, bonds: BondSet)
        requires { (a < max_atoms) × (b < max_atoms) }
        ensures lower { self.new.lower ≡ set self.old.lower (max a b) (min a b) }
        ensures ways { sets_in self.new.ways ≡ set (sets_in self.old.ways) (max a b) (bits bonds) }
    {
        let low = a.min(b);
        let high = a.max(b);
        self.settle(high, Climb { atom: low, bonds });
    }
}
