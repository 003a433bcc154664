// Text, which a writer writes into a lent list of bytes.
ghost use Rattle.definitions.specs.Text as spec;
ghost use Rattle.lent.specs.Writes.{Fits, Writes};
ghost use Rattle.records.specs.Spaced.{spaced};

use hex::encode_to_slice;
use itoa::Buffer;
use lent::Writer;

// A number in decimal.
pub fn put_decimal(number: u64, writer: &mut Writer)
    requires { Fits (spec.decimal number) writer.old }
    ensures { Writes (spec.decimal number) writer.old writer.new }
{
    let mut digits = Buffer::new();
    writer.bytes(digits.format(number).as_bytes());
}

// A number and a space after it.
pub fn put_spaced(number: u64, writer: &mut Writer)
    requires { Fits (spaced number) writer.old }
    ensures { Writes (spaced number) writer.old writer.new }
{
    put_decimal(number, writer);
    writer.byte(b' ');
}

// Bytes in lower-case hex.
pub fn put_hex(bytes: &[u8], writer: &mut Writer)
    requires { Fits (spec.hex bytes.now) writer.old }
    ensures { Writes (spec.hex bytes.now) writer.old writer.new }
{
    let end = writer.at + 2 * bytes.len();
    encode_to_slice(bytes, &mut writer.out[writer.at..end]).unwrap();
    writer.at = end;
}
