// Why an input is refused. Each refusal has a number, by which C and the program name it.
ghost use Rattle.std.specs.Prelude.{◌≡◌};
ghost use Rattle.answers.specs.Told.{number_of};

#[derive(Clone, Copy, Debug, PartialEq, Eq)]
pub enum Refusal {
    // Half a bond: an odd number of bond bytes.
    Odd = 1,
    // No atom, or 65 atoms or more.
    Atoms = 2,
    // 65 bonds or more.
    Bonds = 3,
    // A bond has an end that is the atom count or higher.
    End = 4,
    // The two ends of a bond are one atom.
    SelfBond = 5,
    // Two bonds have the same two atoms.
    Twice = 6,
    // Eleven or more basis rings in one assembly.
    Tangled = 7,
    // The answer has more items than a lent list.
    Room = 8,
    // The set is no ring of the table.
    NotRing = 9,
}

impl Refusal {
    // Its number.
    pub fn number(self) -> u8
        ensures { result ≡ number_of self }
    {
        self as u8
    }
}
