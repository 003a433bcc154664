// Sets written over the start of a lent list, each as its words.
ghost use Rattle.std.specs.Prelude.{◌≡◌, take};
ghost use Rattle.sets.specs.Lists.{sets_in};
ghost use Rattle.definitions.specs.Answer.{written_sets};
ghost use Rattle.answers.specs.Told.{told};

use super::refusal::Refusal;
use sets::WORDS;
use sets::list::{sets_in, sets_up_to};

// Writes the first count sets of a list, or all where it has no more, and none where the lent list is too short for them.
pub fn write_sets(sets: &[u64], count: usize, out: &mut [u64]) -> Result<usize, Refusal>
    ensures { told result out.new ≡ written_sets 0 (take count (sets_in sets.now)) out.old }
{
    let wanted = sets_up_to(sets, count);
    if sets_in(out) < wanted {
        return Err(Refusal::Room);
    }
    let words = wanted * WORDS;
    out[..words].copy_from_slice(&sets[..words]);
    Ok(wanted)
}
