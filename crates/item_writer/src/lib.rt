// Writing items: records and a contents source give the octets that read as them.
#![tactic(auto)]

mod item;

ghost use Rattle.std.specs.Prelude.{◌≡◌, [], true, ◌≤◌, length};
ghost use Rattle.octets.specs.Splice.{splice};
ghost use Rattle.octets.specs.Laid.{Laid};
ghost use Rattle.octets.specs.Refusal.{numbered};
ghost use Rattle.items.specs.Records.{things_of};
ghost use Rattle.items.specs.Grammar.{encode_all};
ghost use Rattle.item_judge.specs.Judge.{records_in, good_from, write_fault};

use octets::Refusal;

// The items that the records name in the source, laid from the area's first octet. 62 comes first, 61 last.
pub fn write(records: &[u8], source: &[u8], out: &mut [u8]) -> Result<usize, Refusal>
    ensures { Laid (write_fault records.now source.now) (encode_all (things_of source.now (records_in records.now))) out.old (numbered result) out.new }
{
    let size = item_judge::judge(records, source)?;
    if out.len() < size {
        return Err(Refusal::TooSmall);
    }
    put_all(records, source, out);
    Ok(size)
}

// Good records, one after the other, into an area that is long enough.
fn put_all(records: &[u8], source: &[u8], out: &mut [u8])
    requires { (good_from source.now [] (records_in records.now) ≡ true) × (length (encode_all (things_of source.now (records_in records.now))) ≤ length out.old) }
    ensures { out.new ≡ splice out.old 0 (encode_all (things_of source.now (records_in records.now))) }
{
    let mut at = 0;
    for i in 0..records.len() / 12 {
        let r = item_judge::records::record_at(records, 12 * i);
        at = item::put_item(r, source, out, at);
    }
}
