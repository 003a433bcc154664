// The rows of a table: for each atom the set of the bonds that meet it.
ghost use Rattle.definitions.specs.Table.{table};
ghost use Rattle.table.specs.Rows.{RowsOf};

use super::refusal::try_table;
use answers::{ATOM_WORDS, Refusal};

// The rows of a table as a list of sets, which are filled while it is tested.
pub fn rows_of(atoms: u64, bonds: &[u8]) -> Result<[u64; ATOM_WORDS], Refusal>
    ensures { RowsOf (table atoms bonds.now) result }
{
    let mut rows = [0u64; ATOM_WORDS];
    try_table(atoms, bonds, &mut rows)?;
    Ok(rows)
}
