// The sidecar of a table: one field with the reduced basis.
#![tactic(auto)]

ghost use Rattle.std.specs.Prelude.{◌≡◌, ◌+◌, ◌≤◌, length};
ghost use Rattle.sets.specs.Bond.{bits};
ghost use Rattle.sets.specs.Lists.{sets_in};
ghost use Rattle.definitions.specs.Table.{table, refusal};
ghost use Rattle.definitions.specs.Label.{bytes_of, bytes_of_all, field, sidecar_tag, set_bytes, sidecar_of};
ghost use Rattle.definitions.specs.Answer.{written};
ghost use Rattle.answers.specs.Told.{told};
ghost use Rattle.lent.specs.Writes.{Fits, Writes};

use answers::Refusal;
use fields::{HEAD, Tag, put_head, put_number};
use lent::Writer;
use sets::list::sets_in;
use sets::{BondSet, WORDS};

// The bytes of a set.
const SET: usize = 8;

// A set, high byte first.
fn put_set(set: BondSet, writer: &mut Writer)
    requires { writer.old.at + set_bytes ≤ length writer.old.out.now }
    ensures { Writes (bytes_of set_bytes (bits set)) writer.old writer.new }
{
    let words = set.words();
    put_number(SET, words[0], writer);
}

// The sets of a list.
fn put_sets(sets: &[u64], writer: &mut Writer)
    requires { Fits (bytes_of_all set_bytes (sets_in sets.now)) writer.old }
    ensures { Writes (bytes_of_all set_bytes (sets_in sets.now)) writer.old writer.new }
{
    for i in 0..sets_in(sets) {
        put_set(BondSet::at(sets, i), writer);
    }
}

// The sidecar of the sets of a list.
fn write_sidecar(sets: &[u64], out: &mut [u8]) -> Result<usize, Refusal>
    ensures { told result out.new ≡ written 0 (field sidecar_tag (bytes_of_all set_bytes (sets_in sets.now))) out.old }
{
    let content = SET * sets_in(sets);
    let count = HEAD + content;
    if out.len() < count {
        return Err(Refusal::Room);
    }
    let mut writer = Writer::new(out);
    put_head(Tag::Reduced.byte(), content, &mut writer);
    put_sets(sets, &mut writer);
    Ok(count)
}

// The sidecar: one field with the reduced basis.
pub fn sidecar(atoms: u64, bonds: &[u8], out: &mut [u8]) -> Result<usize, Refusal>
    ensures answer { told result out.new ≡ written (refusal (table atoms bonds.now)) (sidecar_of (table atoms bonds.now)) out.old }
    ensures read { bonds.exit.now ≡ bonds.entry.now }
{
    let found = reduced::reduce(atoms, bonds)?;
    write_sidecar(&found.sets[..found.count * WORDS], out)
}
