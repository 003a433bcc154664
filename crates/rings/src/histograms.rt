// All rings and those of the smallest basis, counted by size. No ring has bonds of two assemblies, so each assembly is worked out by
// itself, in lists that have room for its sums, and its rings are counted on top of those of the others.
ghost use Rattle.std.specs.Prelude.{◌/◌, ◌^◌, ◌<◌, length};
ghost use Rattle.sets.specs.Lists.{words};
ghost use Rattle.perception.specs.Perceiving.{many};
ghost use Rattle.rings.specs.Tally.{most_in_one, own_rings, Open, Both, Single, Combinable};

use super::assembly::Assembly;
use answers::{BASIS_WORDS, SIZES};
use choosing::smallest_of;
use combining::add_assembly;
use ordering::{count_sizes, order_rings};
use perception::{FEW, FEW_WORDS, MANY_WORDS};
use sets::{BondSet, WORDS, WordSet};

// How many of all rings and how many of the smallest basis have each size, and what is above all sizes that are counted.
#[derive(Clone, Copy)]
pub struct Histograms {
    pub all: [usize; SIZES],
    pub smallest: [usize; SIZES],
    pub top: usize,
}

impl Histograms {
    // Counts a ring that is alone in its assembly: it is its own smallest basis.
    fn count_alone(&mut self, assembly: Assembly)
        requires { Single assembly × Open self.old most_in_one }
        ensures { Both (own_rings assembly.entry) self.old self.new }
    {
        let rings = assembly.rings;
        let size = BondSet::at(rings, assembly.members.next(0)).size();
        self.all[size] += 1;
        self.smallest[size] += 1;
        self.top = self.top.max(size + 1);
    }

    // Counts the rings of an assembly, and those of its smallest basis, in two lists with room.
    fn count_assembly(&mut self, assembly: Assembly, found: &mut [u64], ordered: &mut [u64])
        requires { Combinable assembly (length found.old / words) × Combinable assembly (length ordered.old / words) × Open self.old most_in_one }
        ensures { Both (own_rings assembly.entry) self.old self.new }
    {
        let n = add_assembly(assembly.rings, assembly.members, ordered, found, 0);
        let all_found = &found[..n * WORDS];
        self.top = count_sizes(all_found, &mut self.all, self.top);
        order_rings(all_found, ordered);
        let in_order = &ordered[..n * WORDS];
        let mut taken = [0u64; BASIS_WORDS];
        let chosen = smallest_of(in_order, assembly.members.size(), &mut taken);
        self.top = count_sizes(&taken[..chosen * WORDS], &mut self.smallest, self.top);
    }

    // Counts them in two lists of so many words. The compiler merges it into no caller, so that the stack holds these lists only where they
    // are needed.
    #[inline(never)]
    fn count_in<const LONG: usize>(&mut self, assembly: Assembly)
        requires { (LONG < 2 ^ 60) × Combinable assembly (LONG / words) × Open self.old most_in_one }
        ensures { Both (own_rings assembly.entry) self.old self.new }
    {
        let mut found = [0u64; LONG];
        let mut ordered = [0u64; LONG];
        self.count_assembly(assembly, &mut found, &mut ordered);
    }

    // Counts them in the shortest lists that have room for the assembly's sums; a ring that is alone needs none.
    pub(crate) fn count(&mut self, assembly: Assembly)
        requires { Combinable assembly many × Open self.old most_in_one }
        ensures { Both (own_rings assembly.entry) self.old self.new }
    {
        let size = assembly.members.size();
        if size == 1 {
            return self.count_alone(assembly);
        }
        if 1 << size <= FEW {
            return self.count_in::<FEW_WORDS>(assembly);
        }
        self.count_in::<MANY_WORDS>(assembly)
    }
}
