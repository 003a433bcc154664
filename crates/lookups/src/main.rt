// A program for tests: it prints what the size lookup hands back, which cannot be called from C. A record of standard input is two lists,
// each its number of words and then these, all in eight bytes, high byte first; bytes that make no whole word are left out. For each
// record its number from 1 is printed and, for the sizes 0 and 3 to 8, the words found; a broken one prints its number and `frame`, and
// ends the output. A read that fails ends the input, and a write that fails is passed over.
#![tactic(auto)]

ghost use Rattle.std.specs.Prelude.{◌≡◌, ◌+◌, ◌<◌, is_some, IfSome, length, get_or, take, drop, ltb};

use records::read_input;
use std::io::{self, Read};

// No more words of the input are read: enough for two lists of all rings.
const MOST_WORDS: usize = 16384;

// Their bytes.
const MOST_BYTES: usize = 8 * MOST_WORDS;

// The words that bytes stand for, and zeros.
fn words_of(bytes: &[u8]) -> [u64; MOST_WORDS]
    ensures { 16384 ≡ length result }
{
    let mut words = [0; MOST_WORDS];
    for (word, eight) in words.iter_mut().zip(bytes.as_chunks().0) {
        *word = u64::from_be_bytes(*eight);
    }
    words
}

// The list that words start with, its number of words before it, and what comes after it; a broken one is none.
fn first_list(words: &[u64]) -> Option<(&[u64], &[u64])>
    ensures whole { is_some result ≡ ltb (get_or words.now 0 0) (length words.now) }
    ensures list { IfSome result (λ parts. parts.0.now ≡ take (get_or words.now 0 0) (drop 1 words.now)) }
    ensures rest { IfSome result (λ parts. parts.1.now ≡ drop (get_or words.now 0 0 + 1) words.now) }
{
    let (count, rest) = words.split_first()?;
    rest.split_at_checked(*count as usize)
}

// A line with a size and the words that the lookup hands back for it.
fn print_found(rt: &impl Print, first: &[u64], second: &[u64], size: u64) {
    let _ = print!(rt; "lookup {size}");
    for word in lookup::of_size(first, second, size) {
        let _ = print!(rt; " {word:x}");
    }
    let _ = println!(rt;);
}

// The lines of a record.
fn answer_lists(rt: &impl Print, first: &[u64], second: &[u64]) {
    for size in [0, 3, 4, 5, 6, 7, 8] {
        print_found(rt, first, second, size);
    }
}

// The number and the lines of the record that words start with, and what comes after it; a broken one is none.
fn answer_record<'a>(rt: &impl Print, words: &'a [u64], number: u64) -> Option<&'a [u64]>
    ensures { IfSome result (λ rest. length rest.now < length words.entry.now) }
{
    let (first, rest) = first_list(words)?;
    let (second, rest) = first_list(rest)?;
    let _ = println!(rt; "{number}");
    answer_lists(rt, first, second);
    Some(rest)
}

// What the lookup finds in each record, up to the first that is broken.
fn answer_all(rt: &impl Print, words: &[u64]) {
    let mut number: u64 = 1;
    let mut rest = words;
    while let Some(after) = answer_record(rt, rest, number) {
        number += 1;
        rest = after;
    }
    if !rest.is_empty() {
        let _ = println!(rt; "{number} frame");
    }
}

// An input that ends where a read fails.
#[derive(Drop)]
struct ToFailure<R>(R);

impl<R: Read> Read for ToFailure<R> {
    fn read(&mut self, buf: &mut [u8]) -> io::Result<usize> {
        Ok(self.0.read(buf).unwrap_or(0))
    }
}

fn main(rt: HostRuntime) {
    let mut bytes = [0u8; MOST_BYTES];
    let count = read_input(&mut ToFailure(rt.stdin()), &mut bytes).unwrap_or(0);
    let words = words_of(&bytes[..count]);
    answer_all(&rt, &words[..count / 8]);
}
