// The lines that the program prints, each written by a writer.
ghost use Rattle.definitions.specs.Ringline as text;
ghost use Rattle.lent.specs.Writes.{Fits, Writes};
ghost use Rattle.ringline.specs.Line.{answer_text, answer_line};

use answers::Refusal;
use lent::Writer;
use records::{put_decimal, put_hex, put_spaced};

// `end` and the number of records.
pub(crate) fn put_end(records: u64, writer: &mut Writer)
    requires { Fits (text.end_line records) writer.old }
    ensures { Writes (text.end_line records) writer.old writer.new }
{
    writer.bytes(b"end ");
    put_decimal(records, writer);
    writer.byte(b'\n');
}

// The number of a broken record and `frame`.
pub(crate) fn put_frame(number: u64, writer: &mut Writer)
    requires { Fits (text.frame_line number) writer.old }
    ensures { Writes (text.frame_line number) writer.old writer.new }
{
    put_spaced(number, writer);
    writer.bytes(b"frame\n");
}

// 0 and a label in hex, or the number of a refusal and `-`.
fn put_label(label: Result<&[u8], Refusal>, writer: &mut Writer)
    requires { Fits (answer_text label) writer.old }
    ensures { Writes (answer_text label.entry) writer.old writer.new }
{
    match label {
        Ok(bytes) => {
            writer.bytes(b"0 ");
            put_hex(bytes, writer);
        }
        Err(refusal) => {
            put_spaced(refusal.number() as u64, writer);
            writer.byte(b'-');
        }
    }
}

// The number of a record, and its label or refusal.
pub(crate) fn put_answer(number: u64, label: Result<&[u8], Refusal>, writer: &mut Writer)
    requires { Fits (answer_line number label) writer.old }
    ensures { Writes (answer_line number label.entry) writer.old writer.new }
{
    put_spaced(number, writer);
    put_label(label, writer);
    writer.byte(b'\n');
}
