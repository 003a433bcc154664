// The histogram of how many sets have each size: for each size that some set has, one byte size and the count. A list of counts has one for
// each size from 0 on, and no set has a size past its end.
ghost use Rattle.std.specs.Prelude.{◌≡◌, ◌+◌, ◌*◌, ◌≤◌, ◌<◌, length, count_by, ltb};
ghost use Rattle.definitions.specs.Table.{all_sizes};
ghost use Rattle.definitions.specs.Label.{field};
ghost use Rattle.lent.specs.Writes.{Fits, Writes};
ghost use Rattle.labels.specs.Sizes as spec;

use fields::{put_head, put_tagged};
use lent::Writer;

// The counts of a histogram, the bytes that each takes, and the bytes of all its lines.
#[derive(Clone, Copy)]
pub(crate) struct Histogram<'a> {
    width: usize,
    counts: &'a [usize],
    pub(crate) bytes: usize,
    ghost narrow: { width ≤ 8 },
    ghost sizes: { length counts.now ≤ all_sizes },
    ghost long: { bytes ≡ length (spec.lines width counts.now) },
    ghost short: { bytes ≤ 9 * all_sizes },
}

// How many sizes some set has.
fn sizes_had(counts: &[usize]) -> usize
    ensures { result ≡ count_by (λ k. ltb 0 k) counts.now }
{
    counts.iter().filter(|count| **count > 0).count()
}

// The line of a size: nothing where no set has it.
fn put_line(width: usize, size: usize, count: usize, writer: &mut Writer)
    requires { (width ≤ 8) × (size < all_sizes) × Fits (spec.line width size count) writer.old }
    ensures { Writes (spec.line width size count) writer.old writer.new }
{
    if count > 0 {
        put_tagged(size as u8, width, count as u64, writer);
    }
}

impl<'a> Histogram<'a> {
    // Each line has a byte more than its count.
    pub(crate) fn new(width: usize, counts: &'a [usize]) -> Histogram<'a>
        requires { (width ≤ 8) × (length counts.now ≤ all_sizes) }
        ensures { (result.width ≡ width) × (result.counts.now ≡ counts.now) }
    {
        Histogram {
            width,
            counts,
            bytes: sizes_had(counts) * (1 + width),
        }
    }

    // Its lines, sizes rising.
    fn put_lines(&self, writer: &mut Writer)
        requires { Fits (spec.lines self.now.width self.now.counts.now) writer.old }
        ensures { Writes (spec.lines self.now.width self.now.counts.now) writer.old writer.new }
    {
        for (size, count) in self.counts.iter().enumerate() {
            put_line(self.width, size, *count, writer);
        }
    }

    // A field of it.
    pub(crate) fn put_field(&self, tag: u8, writer: &mut Writer)
        requires { Fits (field tag (spec.lines self.now.width self.now.counts.now)) writer.old }
        ensures { Writes (field tag (spec.lines self.now.width self.now.counts.now)) writer.old writer.new }
    {
        put_head(tag, self.bytes, writer);
        self.put_lines(writer);
    }
}
