// The assemblies of basis rings, as 000 finds them: the first ring left starts an assembly, and the rings left that share a bond with
// it are added, until a pass over those left adds none.
ghost use Rattle.std.specs.Prelude.{◌≡◌, true, List, ℕ, ◌≤◌, ◌<◌, length, get_or, take};
ghost use Rattle.sets.specs.Bits.{has};
ghost use Rattle.sets.specs.Bond.{bits as bond_bits};
ghost use Rattle.sets.specs.Ring.{bits as ring_bits};
ghost use Rattle.sets.specs.Lists.{sets_in};
ghost use Rattle.definitions.specs.Assembly.{assemblies_of};
ghost use Rattle.definitions.specs.Answer.{over};
ghost use Rattle.basis.specs.Held.{members_of, AssembliesOf};
ghost use Rattle.basis.specs.Clusters.{group_of, joined_by, Grouped, Apart, Pass, Numbered};

use super::found::Assemblies;
use answers::BASIS_WORDS;
use sets::list::{sets_in, sets_up_to};
use sets::{BondSet, RingSet, WORDS, WordSet};

// An assembly that grows: its basis rings, their bonds, and the rings that are left.
#[derive(Clone, Copy)]
pub(crate) struct Cluster {
    pub members: RingSet,
    pub bonds: BondSet,
    pub left: RingSet,
}

impl Cluster {
    // Ring i, one of those left, joins the cluster where it shares a bond with it.
    fn joined(self, i: usize, ring: BondSet) -> Cluster
        ensures { group_of result ≡ joined_by (group_of self) i (bond_bits ring) }
    {
        if ring.meets(self.bonds) {
            Cluster {
                members: self.members.with(i),
                bonds: self.bonds.union(ring),
                left: self.left.without(i),
            }
        } else {
            self
        }
    }

    // One pass over the rings left.
    fn passed(self, rings: &[u64]) -> Cluster
        requires { (i : ℕ) → has (ring_bits self.left) i ≡ true → i < length (sets_in rings.now) }
        ensures { Pass (sets_in rings.now) (group_of self) (group_of result) }
    {
        let mut cluster = self;
        for i in self.left {
            cluster = cluster.joined(i, BondSet::at(rings, i));
        }
        cluster
    }
}

// The cluster of a ring, collected from the rings left by passes until one adds none.
fn cluster_of(rings: &[u64], first: usize, left: RingSet) -> Cluster
    requires first { has (ring_bits left) first ≡ true }
    requires inside { (i : ℕ) → has (ring_bits left) i ≡ true → i < length (sets_in rings.now) }
    ensures grouped { Grouped (sets_in rings.now) first (ring_bits left) (group_of result) }
    ensures apart { Apart (sets_in rings.now) (group_of result) }
{
    let mut cluster = Cluster {
        members: RingSet::only(first),
        bonds: BondSet::at(rings, first),
        left: left.without(first),
    };
    loop {
        let before = cluster.left.size();
        cluster = cluster.passed(rings);
        if cluster.left.size() == before {
            return cluster;
        }
    }
}

// The first count sets of a list, or all of them where it has no more.
fn first_sets(list: &[u64], count: usize) -> &[u64]
    ensures { sets_in result.now ≡ take count (sets_in list.now) }
{
    &list[..sets_up_to(list, count) * WORDS]
}

// The assemblies of the first basis rings of a list, or of all of them where a list has no more.
pub fn assemblies_of(rings: &[u64; BASIS_WORDS], count: usize) -> Assemblies
    ensures { AssembliesOf (take count (sets_in rings.now)) result }
{
    let known = first_sets(rings, count);
    let mut found = Assemblies::new();
    let mut left = RingSet::below(sets_in(known));
    while let Some(first) = left.into_iter().next() {
        let cluster = cluster_of(known, first, left);
        found.push(cluster.members);
        left = cluster.left;
    }
    found
}

// Writes the number of an assembly at the place of each of its basis rings.
fn number_members(members: RingSet, a: u8, out: &mut [u8])
    requires { (i : ℕ) → has (ring_bits members) i ≡ true → i < length out.old }
    ensures { Numbered (has (ring_bits members)) (λ i. a) out.old out.new }
{
    for i in members {
        out[i] = a;
    }
}

// Writes the assembly of each basis ring over the start of a list.
pub(crate) fn write_assemblies(found: &Assemblies, out: &mut [u8])
    requires { (a i : ℕ) → has (get_or (members_of found.now) a 0) i ≡ true → i < length out.old }
    ensures { (rs : List ℕ) → length rs ≤ length out.old → AssembliesOf rs found.now → out.new ≡ over (assemblies_of rs) out.old }
{
    for (a, members) in found.iter().enumerate() {
        number_members(*members, a as u8, out);
    }
}
