// An input, read to its end or as far as there is room.
ghost use Rattle.std.specs.Prelude.{IfOk};
ghost use Rattle.std.specs.Io.{ReadsAtMost};
ghost use Rattle.records.specs.Filled.{Filled};

use std::io::{self, Read};

// Reads until the list is full or the input ends, and tells how many bytes were read.
pub fn read_input<R: Read>(input: &mut R, bytes: &mut [u8]) -> io::Result<usize>
    ensures bound { ReadsAtMost result bytes.new }
    ensures filled { IfOk result (λ n. Filled (R.remaining input.old) (R.remaining input.new) bytes.new n) }
{
    let mut done = 0;
    while done < bytes.len() {
        match input.read(&mut bytes[done..])? {
            0 => break,
            more => done += more,
        }
    }
    Ok(done)
}
