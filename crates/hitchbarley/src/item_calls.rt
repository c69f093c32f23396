// Tag items: listed, stepped over, written.
ghost use Rattle.items.specs.Records.{things_of};
ghost use Rattle.items.specs.Grammar.{encode_all};
ghost use Rattle.item_judge.specs.Judge.{records_in, write_fault};
ghost use Rattle.reader.specs.Reading.{step_of};
ghost use Rattle.hitchbarley.specs.Answers.{Writes, FillsTo};
ghost use Rattle.hitchbarley.specs.Items.{Lists, Steps, step_good, step_number, step_record, step_place};

use crate::answers;
use octets::Refusal;
use reader::Step;

// The items' records, 12 octets each, and their count: 0, 30 to 39, or 61 with the count needed and nothing written.
pub fn hb_items_list(octets: &[u8], listed: &mut [u8], count: &mut usize) -> u8
    ensures { Lists octets.now listed.old result count.new listed.new }
{
    answers::tallied(items::list(octets, listed), count)
}

// The place after the item at a place, with its whole group where it opens one: 0 or 30 to 39.
pub fn hb_item_next(octets: &[u8], at: usize, next: &mut usize) -> u8
    ensures { Steps octets.now at result next.new }
{
    match items::item_at(octets, at) {
        Ok(n) => {
            *next = n;
            0
        }
        Err(r) => {
            *next = 0;
            r.number()
        }
    }
}

// The reader's step: the record of the item or group at a place, and the place after it: 0, 60 or 30 to 39. At the end, 0 and no place.
pub fn hb_item_step(octets: &[u8], at: usize, item: &mut [u8], next: &mut usize) -> u8
    ensures { FillsTo 12 (step_good (step_of octets.now at)) (step_number (step_of octets.now at)) (step_record (step_of octets.now at)) (step_place (step_of octets.now at)) item.old result next.new item.new }
{
    *next = 0;
    if item.len() != 12 {
        return Refusal::AreaSize.number();
    }
    match reader::step_at(octets, at) {
        Ok(
            Step::Item {
                kind,
                number,
                value,
                place,
                len,
                next: to,
            },
        ) => {
            records::item::put(kind, number, value, place, len, item);
            *next = to;
            0
        }
        Ok(
            Step::Group {
                number,
                place,
                next: to,
            },
        ) => {
            records::item::put(2, number, 0, place, 0, item);
            *next = to;
            0
        }
        Ok(Step::End) => 0,
        Err(r) => r.number(),
    }
}

// The octets of the items that these records name in the source: 0, 62 or 61; and how many were written.
pub fn hb_items_write(listed: &[u8], source: &[u8], out: &mut [u8], wrote: &mut usize) -> u8
    ensures { Writes (write_fault listed.now source.now) (encode_all (things_of source.now (records_in listed.now))) out.old result wrote.new out.new }
{
    answers::written(item_writer::write(listed, source, out), wrote)
}
