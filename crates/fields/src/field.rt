// Tagged fields: one byte tag, two bytes length, and the content.
ghost use Rattle.std.specs.Prelude.{◌≡◌, ◌+◌, ◌≤◌, length, ◌∷◌};
ghost use Rattle.definitions.specs.Label.{bytes_of, bytes_of_all, field};
ghost use Rattle.lent.specs.Writes.{Fits, Writes};
ghost use Rattle.fields.specs.Tags.{tag_byte};

use super::number::{put_numbers, put_tagged};
use lent::Writer;

// What a field holds.
#[derive(Clone, Copy)]
pub enum Tag {
    // The Frerejacque number.
    Frerejacque = 0x01,

    // The sizes of all rings.
    Rings = 0x02,

    // The sizes of the smallest basis.
    Smallest = 0x03,

    // The assemblies' pairs.
    Assemblies = 0x04,

    // The reduced basis.
    Reduced = 0x20,
}

impl Tag {
    // The byte that a field starts with.
    pub fn byte(self) -> u8
        ensures { result ≡ tag_byte self }
    {
        self as u8
    }
}

// The bytes of a field's length.
const LENGTH: usize = 2;

// The bytes of a field before its content.
pub const HEAD: usize = 1 + LENGTH;

// The head of a field with so many bytes of content.
pub fn put_head(tag: u8, content: usize, writer: &mut Writer)
    requires { writer.old.at + 3 ≤ length writer.old.out.now }
    ensures { Writes (tag ∷ bytes_of 2 content) writer.old writer.new }
{
    put_tagged(tag, LENGTH, content as u64, writer);
}

// A field of numbers, each in so many bytes.
pub fn put_number_field(tag: u8, width: usize, numbers: &[u64], writer: &mut Writer)
    requires { (width ≤ 8) × Fits (field tag (bytes_of_all width numbers.now)) writer.old }
    ensures { Writes (field tag (bytes_of_all width numbers.now)) writer.old writer.new }
{
    put_head(tag, numbers.len() * width, writer);
    put_numbers(width, numbers, writer);
}
