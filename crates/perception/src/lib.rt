// What all rings, the smallest basis and the label have in common: the refusal, the basis rings and the assemblies of a table, and how
// long the lists are in which its rings are worked out.
#![tactic(auto)]

ghost use Rattle.definitions.specs.Table.{table};
ghost use Rattle.perception.specs.Perceiving.{Perceives};

use answers::{MAX_ASSEMBLY, Refusal};
use basis::{Assemblies, Basis};
use sets::{WORDS, WordSet};

// How many sets such a list holds. It is cleared before it is used, so the shortest is taken that has room. This one is for tables with
// fewer sums than that, as drug-like ones have.
pub const FEW: usize = 32;

// This one is for one assembly of as many basis rings as it may have, and for tables with fewer sums than that.
pub const MANY: usize = 1024;

// The two lengths in words.
pub const FEW_WORDS: usize = FEW * WORDS;

pub const MANY_WORDS: usize = MANY * WORDS;

// The basis rings and the assemblies of a table, and how many sums these have that are not empty: there are no more rings than that.
#[derive(Clone, Copy)]
pub struct Perceived {
    pub basis: Basis,
    pub assemblies: Assemblies,
    pub sums: usize,
}

// What is worked out of a table. An assembly of k basis rings has 2 ^ k - 1 sums that are not empty.
pub fn perceive(atoms: u64, bonds: &[u8]) -> Result<Perceived, Refusal>
    ensures { Perceives (table atoms bonds.now) result }
{
    let basis = basis::basis_of(atoms, bonds)?;
    let assemblies = basis::assemblies_of(&basis.rings, basis.count);
    let mut sums: usize = 0;
    for members in &assemblies {
        let rings = members.size();
        if rings > MAX_ASSEMBLY {
            return Err(Refusal::Tangled);
        }
        sums += (1 << rings) - 1;
    }
    Ok(Perceived {
        basis,
        assemblies,
        sums,
    })
}
