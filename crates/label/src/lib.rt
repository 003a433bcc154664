// The label of a table: its rings counted, and the counts as bytes.
#![tactic(auto)]

ghost use Rattle.std.specs.Prelude.{◌≡◌};
ghost use Rattle.definitions.specs.Table.{table};
ghost use Rattle.definitions.specs.Label as spec;
ghost use Rattle.definitions.specs.Answer.{written, refusal_of_rings};
ghost use Rattle.answers.specs.Told.{told};

use answers::{MAX_BONDS, Refusal, SIZES};
use labels::write_label;
use rings::{Histograms, count_rings};

// The label: four fields, from the number of basis rings, which is the Frerejacque number, the rings, the smallest basis and the assemblies.
pub fn label(atoms: u64, bonds: &[u8], out: &mut [u8]) -> Result<usize, Refusal>
    ensures answer { told result out.new ≡ written (refusal_of_rings (table atoms bonds.now)) (spec.label_of (table atoms bonds.now)) out.old }
    ensures read { bonds.exit.now ≡ bonds.entry.now }
{
    let mut counted = Histograms {
        all: [0usize; SIZES],
        smallest: [0usize; SIZES],
        top: 0,
    };
    let mut pairs = [0u64; MAX_BONDS];
    let counts = count_rings(atoms, bonds, &mut counted, &mut pairs)?;
    let frerejacque = counts.basis as u64;
    let top = counted.top;
    let pairs = &pairs[..counts.pairs];
    write_label(
        frerejacque,
        &counted.all[..top],
        &counted.smallest[..top],
        pairs,
        out,
    )
}
