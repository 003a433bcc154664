// The bytes of a label, over the start of a lent list where there is room for them.
ghost use Rattle.std.specs.Prelude.{◌≡◌, ◌≤◌, length};
ghost use Rattle.definitions.specs.Table.{all_sizes};
ghost use Rattle.definitions.specs.Answer.{over, written};
ghost use Rattle.answers.specs.Told.{told};
ghost use Rattle.labels.specs.Text.{fields_of, label_bytes};
ghost use Rattle.labels.specs.Sizes.{lines};

use super::histogram::Histogram;
use answers::Refusal;
use fields::{HEAD, Tag, put_number_field};
use lent::Writer;

// The bytes of a count of rings.
const COUNT: usize = 2;

// The bytes of a count of smallest rings.
const SMALL_COUNT: usize = 1;

// The bytes of an assembly's pair.
const PAIR: usize = 2;

// The four fields of the label, one after another.
fn put_fields(
    frerejacque: u64,
    rings: &Histogram,
    smallest: &Histogram,
    pairs: &[u64],
    out: &mut [u8],
)
    requires { length (fields_of frerejacque (lines rings.now.width rings.now.counts.now) (lines smallest.now.width smallest.now.counts.now) pairs.now) ≤ length out.old }
    ensures { out.new ≡ over (fields_of frerejacque (lines rings.now.width rings.now.counts.now) (lines smallest.now.width smallest.now.counts.now) pairs.now) out.old }
{
    let mut writer = Writer::new(out);
    put_number_field(Tag::Frerejacque.byte(), 1, &[frerejacque], &mut writer);
    rings.put_field(Tag::Rings.byte(), &mut writer);
    smallest.put_field(Tag::Smallest.byte(), &mut writer);
    put_number_field(Tag::Assemblies.byte(), PAIR, pairs, &mut writer);
}

// The label, from the Frerejacque number, how many rings and how many smallest rings have each size, and the assemblies' pairs.
pub fn write_label(
    frerejacque: u64,
    rings: &[usize],
    smallest: &[usize],
    pairs: &[u64],
    out: &mut [u8],
) -> Result<usize, Refusal>
    requires { (length rings.now ≤ all_sizes) × (length smallest.now ≤ all_sizes) }
    ensures { told result out.new ≡ written 0 (label_bytes frerejacque rings.now smallest.now pairs.now) out.old }
{
    let rings = Histogram::new(COUNT, rings);
    let smallest = Histogram::new(SMALL_COUNT, smallest);
    let count = 4 * HEAD + 1 + rings.bytes + smallest.bytes + PAIR * pairs.len();
    if count > out.len() {
        return Err(Refusal::Room);
    }
    put_fields(frerejacque, &rings, &smallest, pairs, out);
    Ok(count)
}
