// The two atoms of a bond.
ghost use Rattle.table.specs.Ends.{EndsOf};

// The atom that is written first, and the other.
#[derive(Clone, Copy)]
pub struct Ends {
    pub tail: usize,
    pub head: usize,
}

// The atoms of bond k, and atom 0 twice where there is no such bond.
pub fn ends_of(bonds: &[u8], k: usize) -> Ends
    ensures { EndsOf bonds.now k result }
{
    if k < bonds.len() / 2 {
        return Ends {
            tail: bonds[2 * k] as usize,
            head: bonds[2 * k + 1] as usize,
        };
    }
    Ends { tail: 0, head: 0 }
}
