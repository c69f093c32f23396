// Records of items to write: whether they are the reading of some octets, and how many octets these are.
#![tactic(auto)]

mod contents;
mod kinds;
mod nesting;
pub mod records;

ghost use Rattle.std.specs.Prelude.{◌≡◌, ◌/◌, ◌%◌, ◌≤◌, length};
ghost use Rattle.octets.specs.Refusal.{numbered};
ghost use Rattle.item_judge.specs.Judge.{judged};

use nesting::Open;
use octets::Refusal;

// A record of an item to write: its kind, number, depth, value, and the place and the length of its contents.
#[derive(Clone, Copy)]
pub struct Record {
    pub kind: u8,
    pub number: u8,
    pub depth: usize,
    pub value: u8,
    pub place: usize,
    pub len: usize,
}

// The numbers of the open groups, the innermost last, and how many there are: as plain octets, which `nesting::Open` keeps in bounds and sees as a list.
#[derive(Clone, Copy)]
pub struct Groups {
    pub numbers: [u8; 16],
    pub depth: usize,
}

// The octets that the items of records take. The records are judged whole before anything is written.
pub fn judge(records: &[u8], source: &[u8]) -> Result<usize, Refusal>
    ensures { numbered result ≡ judged records.now source.now }
{
    if records.len() % 12 != 0 || 2048 < records.len() / 12 {
        return Err(Refusal::NoReading);
    }
    judge_all(records, source)
}

// At most 2,048 whole records, from the first to the last.
fn judge_all(records: &[u8], source: &[u8]) -> Result<usize, Refusal>
    requires { (length records.now % 12 ≡ 0) × (length records.now / 12 ≤ 2048) }
    ensures { numbered result ≡ judged records.now source.now }
{
    let mut groups = Open::none();
    let mut size = 0;
    for i in 0..records.len() / 12 {
        let r = records::record_at(records, 12 * i);
        if !kinds::good(r, source, &groups) {
            return Err(Refusal::NoReading);
        }
        size += records::size(r);
        groups.pass(r);
    }
    if 0 < groups.depth() || 16384 < size {
        return Err(Refusal::NoReading);
    }
    Ok(size)
}
