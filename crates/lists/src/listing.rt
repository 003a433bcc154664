// The list of all rings: those of one assembly after another, then put in order.
ghost use Rattle.std.specs.Prelude.{length};
ghost use Rattle.sets.specs.Lists.{sets_in};
ghost use Rattle.basis.specs.Held.{members_of, held_count};
ghost use Rattle.lists.specs.Listed.{rings_found, Listable, Ordered};

use answers::BASIS_WORDS;
use basis::Assemblies;
use combining::add_assembly;
use ordering::order_rings;
use sets::WORDS;

// All rings of the assemblies in order at the start of a list, and how many there are. They are found one assembly after another in another
// list with room; the one in which they come to stand holds the sums of each assembly before that.
pub(crate) fn list_rings(
    rings: &[u64; BASIS_WORDS],
    assemblies: &Assemblies,
    found: &mut [u64],
    ordered: &mut [u64],
) -> usize
    requires { Listable (members_of assemblies.now) (held_count assemblies.now) (length (sets_in found.old)) × Listable (members_of assemblies.now) (held_count assemblies.now) (length (sets_in ordered.old)) }
    ensures { Ordered (rings_found (sets_in rings.now) assemblies.now) (sets_in ordered.new) result }
{
    let mut count: usize = 0;
    for members in assemblies {
        count = add_assembly(rings, *members, ordered, found, count);
    }
    order_rings(&found[..count * WORDS], ordered);
    count
}
