// From the bytes of standard input to the bytes that the program prints.
ghost use Rattle.std.specs.Prelude.{◌≡◌, ◌+◌, ◌*◌, ◌^◌, ◌≤◌, ◌<◌, length, take};
ghost use Rattle.definitions.specs.Ringline as text;
ghost use Rattle.definitions.specs.Table.{table};
ghost use Rattle.definitions.specs.Records.{head_bytes};
ghost use Rattle.lent.specs.Writes.{Writes};
ghost use Rattle.ringline.specs.Counts.{IsPrefixLen};

use crate::line::{put_answer, put_end, put_frame};
use label::label;
use lent::Writer;
use records::{Record, first_record};

// The most bytes of input that are answered.
pub(crate) const MAX_INPUT: usize = 32768;

// The bytes that are lent for a label: enough for every one.
const LABEL_ROOM: usize = 512;

// The line of a record: its number has four digits at most, and there are seven bytes of room for each byte of the record.
fn put_record(number: u64, given: Record<'_>, writer: &mut Writer)
    requires { (number < 10 ^ 4) × (writer.old.at + 7 * (head_bytes + length given.bonds.now) ≤ length writer.old.out.now) }
    ensures line { Writes (text.record_line number (table given.entry.atoms given.entry.bonds.now)) writer.old writer.new }
    ensures upper_bound { writer.new.at ≤ writer.old.at + 7 * (head_bytes + length given.entry.bonds.now) }
{
    let mut bytes = [0; LABEL_ROOM];
    match label(given.atoms as u64, given.bonds, &mut bytes) {
        Ok(count) => put_answer(number, Ok(&bytes[..count]), writer),
        Err(refusal) => put_answer(number, Err(refusal), writer),
    }
}

// A line for each record, and a last one: the end and the number of records, or the number of a broken one. It has 16 bytes at most.
fn put_lines(input: &[u8], writer: &mut Writer)
    requires { (length input.now ≤ text.max_input) × (writer.old.at + 7 * length input.now + 16 ≤ length writer.old.out.now) }
    ensures { Writes (text.lines_of (length input.now) 1 input.now) writer.old writer.new }
{
    let mut number: u64 = 1;
    let mut rest = input;
    while let Some(first) = first_record(rest) {
        put_record(number, first, writer);
        rest = first.rest;
        number += 1;
    }
    if rest.is_empty() {
        put_end(number - 1, writer);
    } else {
        put_frame(number, writer);
    }
}

// What the program prints for an input.
pub(crate) fn render(input: &[u8], out: &mut [u8]) -> usize
    requires { 7 * text.max_input + 24 ≤ length out.old }
    ensures { IsPrefixLen result out.new × (take result out.new ≡ text.ringline input.now) }
{
    let mut writer = Writer::new(out);
    if input.len() > MAX_INPUT {
        writer.bytes(b"long\n");
        return writer.at;
    }
    writer.bytes(b"rings 1\n");
    put_lines(input, &mut writer);
    writer.at
}
