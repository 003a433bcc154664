// The program: the label of each table on standard input, a line a record.
#![tactic(auto)]

mod line;
mod render;

use records::read_input;
use render::{MAX_INPUT, render};

// No input that is answered prints more.
const MAX_OUTPUT: usize = 7 * MAX_INPUT + 24;

// Where a read fails nothing is printed.
fn main(rt: HostRuntime) {
    let mut bytes = [0u8; MAX_INPUT + 1];
    let Ok(count) = read_input(&mut rt.stdin(), &mut bytes) else {
        return;
    };
    let mut out = [0u8; MAX_OUTPUT];
    let printed = render(&bytes[..count], &mut out);
    let _ = rt.write_all(&out[..printed]);
}
