// All rings of a table and its smallest basis, listed. They are worked out in the shortest lists that have room, each length in an
// instance of its own, so that a table with few sums takes little stack.
#![tactic(auto)]

mod listing;
mod room;
mod wanted;

ghost use Rattle.std.specs.Prelude.{◌≡◌, ◌/◌, ◌^◌, ◌<◌};
ghost use Rattle.sets.specs.Lists.{sets_in, words};
ghost use Rattle.definitions.specs.Search.{sort};
ghost use Rattle.definitions.specs.Table.{table};
ghost use Rattle.definitions.specs.AllRings.{before, all_rings};
ghost use Rattle.definitions.specs.Smallest.{smallest_basis};
ghost use Rattle.definitions.specs.Answer.{written_sets, refusal_of_rings};
ghost use Rattle.answers.specs.Told.{told};
ghost use Rattle.basis.specs.Held.{members_of, held_count};
ghost use Rattle.lists.specs.Listed.{rings_found, Listable, Workable};

use answers::Refusal;
use listing::list_rings;
use perception::{FEW, FEW_WORDS, MANY, MANY_WORDS, Perceived, perceive};
use room::MOST_WORDS;
use sets::WORDS;
use wanted::{AllRings, SmallestBasis, Wanted};

// Writes what is wanted of the rings of a table, worked out in two lists of so many words. The compiler merges it into no caller, so that the
// stack holds these lists only where they are needed.
#[inline(never)]
fn write_in<W: Wanted, const LONG: usize>(
    wanted: W,
    seen: &Perceived,
    out: &mut [u64],
) -> Result<usize, Refusal>
    requires { (LONG < 2 ^ 60) × W.can_choose wanted (sort before (rings_found (sets_in seen.now.basis.rings) seen.now.assemblies)) × Listable (members_of seen.now.assemblies) (held_count seen.now.assemblies) (LONG / words) }
    ensures { told result out.new ≡ written_sets 0 (W.chosen wanted (sort before (rings_found (sets_in seen.now.basis.rings) seen.now.assemblies))) out.old }
{
    let mut found = [0u64; LONG];
    let mut ordered = [0u64; LONG];
    let all = list_rings(
        &seen.basis.rings,
        &seen.assemblies,
        &mut found,
        &mut ordered,
    );
    wanted.write(&ordered[..all * WORDS], out)
}

// Writes it, worked out in the shortest lists that have room for the sums.
fn write_wanted<W: Wanted>(wanted: W, seen: &Perceived, out: &mut [u64]) -> Result<usize, Refusal>
    requires { W.can_choose wanted (sort before (rings_found (sets_in seen.now.basis.rings) seen.now.assemblies)) × Workable (members_of seen.now.assemblies) (held_count seen.now.assemblies) seen.now.sums }
    ensures { told result out.new ≡ written_sets 0 (W.chosen wanted (sort before (rings_found (sets_in seen.now.basis.rings) seen.now.assemblies))) out.old }
{
    if seen.sums < FEW {
        return write_in::<W, FEW_WORDS>(wanted, seen, out);
    }
    if seen.sums < MANY {
        return write_in::<W, MANY_WORDS>(wanted, seen, out);
    }
    write_in::<W, MOST_WORDS>(wanted, seen, out)
}

// All rings: sets as words, ordered by size and then as numbers.
pub fn all_rings(atoms: u64, bonds: &[u8], out: &mut [u64]) -> Result<usize, Refusal>
    ensures answer { told result out.new ≡ written_sets (refusal_of_rings (table atoms bonds.now)) (all_rings (table atoms bonds.now)) out.old }
    ensures read { bonds.exit.now ≡ bonds.entry.now }
{
    let seen = perceive(atoms, bonds)?;
    write_wanted(AllRings, &seen, out)
}

// The smallest basis: sets as words, as they are taken from all rings.
pub fn smallest_basis(atoms: u64, bonds: &[u8], out: &mut [u64]) -> Result<usize, Refusal>
    ensures answer { told result out.new ≡ written_sets (refusal_of_rings (table atoms bonds.now)) (smallest_basis (table atoms bonds.now)) out.old }
    ensures read { bonds.exit.now ≡ bonds.entry.now }
{
    let seen = perceive(atoms, bonds)?;
    let wanted = SmallestBasis {
        count: seen.basis.count,
    };
    write_wanted(wanted, &seen, out)
}
