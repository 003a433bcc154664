// Records: field 10 (hex) with the atom count in one byte, then field 11 (hex) with the bond bytes. The length of a field
// stands in two bytes after its tag, high byte first.
ghost use Rattle.std.specs.Prelude.{◌≡◌, ◌≤◌, is_some, IfSome, get_or, length, take, drop};
ghost use Rattle.definitions.specs.Records as spec;

// The tag of the field with the atom count.
const ATOMS_TAG: u8 = 0x10;

// The tag of the field with the bond bytes.
const BONDS_TAG: u8 = 0x11;

// The bytes of a record before those of its bonds.
pub const RECORD_HEAD: usize = 7;

// The atom count of the record that a list starts with.
pub fn atoms_of(bytes: &[u8]) -> u8
    requires { spec.head_bytes ≤ length bytes.now }
    ensures { result ≡ get_or bytes.now 3 0 }
{
    bytes[3]
}

// How many bytes the record has that a list starts with.
pub fn record_bytes(bytes: &[u8]) -> usize
    requires { spec.head_bytes ≤ length bytes.now }
    ensures { result ≡ spec.record_bytes bytes.now }
{
    RECORD_HEAD + u16::from_be_bytes([bytes[5], bytes[6]]) as usize
}

// A record: the atom count, the bond bytes, and what comes after the record.
#[derive(Clone, Copy)]
pub struct Record<'a> {
    pub atoms: u8,
    pub bonds: &'a [u8],
    pub rest: &'a [u8],
}

// The record that a list starts with, if it starts with a whole one.
pub fn first_record(bytes: &[u8]) -> Option<Record<'_>>
    ensures whole { is_some result ≡ spec.whole? bytes.now }
    ensures atoms { IfSome result (λ r. r.atoms ≡ get_or bytes.now 3 0) }
    ensures bonds { IfSome result (λ r. r.bonds.now ≡ take (spec.length_at bytes.now 5) (drop spec.head_bytes bytes.now)) }
    ensures rest { IfSome result (λ r. r.rest.now ≡ drop (spec.record_bytes bytes.now) bytes.now) }
{
    let [ATOMS_TAG, 0, 1, atoms, BONDS_TAG, high, low, after @ ..] = bytes else {
        return None;
    };
    let length = u16::from_be_bytes([*high, *low]) as usize;
    let (bonds, rest) = after.split_at_checked(length)?;
    Some(Record {
        atoms: *atoms,
        bonds,
        rest,
    })
}
