// Numbers as bytes.
ghost use Rattle.std.specs.Prelude.{◌∷◌, ◌+◌, ◌≤◌, length};
ghost use Rattle.definitions.specs.Label.{bytes_of, bytes_of_all};
ghost use Rattle.lent.specs.Writes.{Fits, Writes};

use lent::Writer;

// A number in so many bytes, high byte first.
pub fn put_number(width: usize, number: u64, writer: &mut Writer)
    requires { (width ≤ 8) × (writer.old.at + width ≤ length writer.old.out.now) }
    ensures { Writes (bytes_of width number) writer.old writer.new }
{
    let bytes = number.to_be_bytes();
    writer.bytes(&bytes[bytes.len() - width..]);
}

// One byte and a number after it.
pub fn put_tagged(tag: u8, width: usize, number: u64, writer: &mut Writer)
    requires { (width ≤ 8) × (writer.old.at + 1 + width ≤ length writer.old.out.now) }
    ensures { Writes (tag ∷ bytes_of width number) writer.old writer.new }
{
    writer.byte(tag);
    put_number(width, number, writer);
}

// The numbers of a list, each in so many bytes.
pub(crate) fn put_numbers(width: usize, numbers: &[u64], writer: &mut Writer)
    requires { (width ≤ 8) × Fits (bytes_of_all width numbers.now) writer.old }
    ensures { Writes (bytes_of_all width numbers.now) writer.old writer.new }
{
    for number in numbers {
        put_number(width, *number, writer);
    }
}
