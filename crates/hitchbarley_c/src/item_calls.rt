// Items, listed, stepped over and written.
ghost use Rattle.items.specs.Records.{things_of};
ghost use Rattle.items.specs.Grammar.{encode_all};
ghost use Rattle.item_judge.specs.Judge.{records_in, write_fault};
ghost use Rattle.reader.specs.Reading.{step_of};
ghost use Rattle.hitchbarley.specs.Answers.{Writes, FillsTo};
ghost use Rattle.hitchbarley.specs.Items.{Lists, Steps, step_good, step_number, step_record, step_place};

use hitchbarley::item_calls;

// The items' records, 12 octets each, and their count: 0, 30 to 39, or 61 with the count needed and nothing written.
#[unsafe(no_mangle)]
pub extern "C" fn hb_items_list(octets: &[u8], listed: &mut [u8], count: &mut usize) -> u8
    ensures { Lists octets.now listed.old result count.new listed.new }
{
    item_calls::hb_items_list(octets, listed, count)
}

// The place after the item at a place, with its whole group where it opens one: 0 or 30 to 39.
#[unsafe(no_mangle)]
pub extern "C" fn hb_item_next(octets: &[u8], at: usize, next: &mut usize) -> u8
    ensures { Steps octets.now at result next.new }
{
    item_calls::hb_item_next(octets, at, next)
}

// The reader's step: the record of the item or group at a place, and the place after it: 0, 60 or 30 to 39. At the end, 0 and no place.
#[unsafe(no_mangle)]
pub extern "C" fn hb_item_step(octets: &[u8], at: usize, item: &mut [u8], next: &mut usize) -> u8
    ensures { FillsTo 12 (step_good (step_of octets.now at)) (step_number (step_of octets.now at)) (step_record (step_of octets.now at)) (step_place (step_of octets.now at)) item.old result next.new item.new }
{
    item_calls::hb_item_step(octets, at, item, next)
}

// The octets of the items that these records name in the source: 0, 62 or 61; and how many were written.
#[unsafe(no_mangle)]
pub extern "C" fn hb_items_write(
    listed: &[u8],
    source: &[u8],
    out: &mut [u8],
    wrote: &mut usize,
) -> u8
    ensures { Writes (write_fault listed.now source.now) (encode_all (things_of source.now (records_in listed.now))) out.old result wrote.new out.new }
{
    item_calls::hb_items_write(listed, source, out, wrote)
}
