// One record's order, and the octet records in front of others.
ghost use Rattle.std.specs.Prelude.{◌≡◌, length, ◌≤◌};
ghost use Rattle.playback.specs.Reading.{order_of};
ghost use Rattle.playback.specs.Lent.{order_by, OctetFirst, Gathered};

use crate::SIZE;
use octets::Refusal;

// What a record is.
#[derive(Clone, Copy)]
pub enum Order {
    Octet(u8),
    Silence,
    Forget(u8),
}

// From its four octets, or 67.
#[tactic(auto, using(octets::specs::Rules::tests), unfolding(crate::specs::Reading::order_of))]
pub fn order_of(kind: u8, value: u8, third: u8, fourth: u8) -> Result<Order, Refusal>
    ensures { result ≡ order_by (order_of kind value third fourth) }
{
    if third != 0 || fourth != 0 {
        return Err(Refusal::BadRecord);
    }
    match kind {
        0 => Ok(Order::Octet(value)),
        1 if value == 0 => Ok(Order::Silence),
        2 => Ok(Order::Forget(value)),
        _ => Err(Refusal::BadRecord),
    }
}

// The octet records in front, the first being one, at most so many: lays their values and answers how many.
pub fn gather(records: &[u8], most: usize, out: &mut [u8]) -> usize
    requires { OctetFirst records.now × ((length out.old ≡ 64) × ((1 ≤ most) × (most ≤ 64))) }
    ensures { Gathered records.now out.new result }
{
    out[0] = records[1];
    for n in 1..most {
        let [0, value, 0, 0, ..] = &records[SIZE * n..] else {
            return n;
        };
        out[n] = *value;
    }
    most
}
