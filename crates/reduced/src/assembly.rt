// The reduced sets of the assemblies, one assembly after another, over the start of a list.
ghost use Rattle.std.specs.Prelude.{◌≡◌, ◌≤◌, length};
ghost use Rattle.sets.specs.Ring.{bits};
ghost use Rattle.sets.specs.Lists.{sets_in};
ghost use Rattle.definitions.specs.Search.{gather, picked};
ghost use Rattle.definitions.specs.Table.{max_bonds};
ghost use Rattle.definitions.specs.Answer.{over};
ghost use Rattle.definitions.specs.Reduced as spec;
ghost use Rattle.basis.specs.Held.{members_of, held_count};
ghost use Rattle.reduced.specs.Picked.{picked_by};

use super::sweep::sweep_until_still;
use answers::BASIS_WORDS;
use basis::Assemblies;
use sets::{BondSet, RingSet, WORDS};

// The basis rings of an assembly, in order, and how many there are.
fn write_members(rings: &[u64; BASIS_WORDS], members: RingSet, out: &mut [u64]) -> usize
    requires { length (picked (sets_in rings.now) (bits members)) ≤ length (sets_in out.old) }
    ensures count { result ≡ length (picked (sets_in rings.now) (bits members)) }
    ensures long { length out.new ≡ length out.old }
    ensures list { sets_in out.new ≡ over (picked (sets_in rings.now) (bits members)) (sets_in out.old) }
{
    let mut n: usize = 0;
    for i in members {
        BondSet::at(rings, i).put_at(out, n);
        n += 1;
    }
    n
}

// The reduced sets of an assembly, and how many there are.
fn reduce_assembly(rings: &[u64; BASIS_WORDS], members: RingSet, out: &mut [u64]) -> usize
    requires { length (picked (sets_in rings.now) (bits members)) ≤ length (sets_in out.old) }
    ensures count { result ≡ length (picked (sets_in rings.now) (bits members)) }
    ensures long { length out.new ≡ length out.old }
    ensures list { sets_in out.new ≡ over (spec.reduced (picked (sets_in rings.now) (bits members))) (sets_in out.old) }
{
    let n = write_members(rings, members, out);
    let words = n * WORDS;
    sweep_until_still(&mut out[..words]);
    n
}

// The reduced sets of the assemblies, one assembly after another.
pub(crate) fn reduce_all(rings: &[u64; BASIS_WORDS], found: &Assemblies, out: &mut [u64])
    requires { length (gather (held_count found.now) (picked_by (sets_in rings.now) (members_of found.now))) ≤ length (sets_in out.old) }
    ensures long { length out.new ≡ length out.old }
    ensures list { sets_in out.new ≡ over (gather (held_count found.now) (λ a. spec.reduced (picked_by (sets_in rings.now) (members_of found.now) a))) (sets_in out.old) }
{
    let mut at: usize = 0;
    for members in found {
        at += reduce_assembly(rings, *members, &mut out[at * WORDS..]);
    }
}
