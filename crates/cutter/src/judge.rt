// What is refused, in order, and how much there is to write.
ghost use Rattle.std.specs.Prelude.{◌≡◌, ◌+◌, ◌*◌, ◌≤◌};
ghost use Rattle.octets.specs.Refusal as Refusing;
ghost use Rattle.cutter.specs.Layout.{segments_of};
ghost use Rattle.cutter.specs.Fault.{front_fault};
ghost use Rattle.cutter.specs.Laying.{header_length, Judged};

use crate::{Message, Way};
use apdu::Edition;
use octets::Refusal;

// Before the message is looked at, of n parameter octets: 39, 64 or 12.
#[tactic(auto, using(octets::specs::Rules::tests), unfolding(crate::specs::Fault::front_fault, npdu::specs::Fault::fault_of, npdu::specs::Fault::part_fault, npdu::specs::Fault::sooner, octets::specs::Choice::given))]
pub fn judge_front(w: Way, n: usize) -> Result<(), Refusal>
    ensures { Refusing.fault_of result ≡ front_fault w n }
{
    if 16384 < n {
        return Err(Refusal::TooManyOctets);
    }
    if w.each == 0 || 474 < w.each || w.window == 0 || 127 < w.window {
        return Err(Refusal::OutOfRange);
    }
    if 3 < w.priority {
        return Err(Refusal::NpduReserved);
    }
    Ok(())
}

// The number of segments: n octets by each, rounded up, and one where there are none.
fn segments(each: usize, n: usize) -> usize
    requires { (1 ≤ each) × (each ≤ 474) × (n ≤ 16384) }
    ensures { result ≡ segments_of each n }
{
    n.div_ceil(each).max(1)
}

// The first refusal, or the number of segments: they are counted only once it is known that each has octets.
#[tactic(auto, using(octets::specs::Rules::tests), unfolding(crate::specs::Fault::fault_of, crate::specs::Fault::count_fault))]
pub fn judge(edition: Edition, m: Message, w: Way, n: usize) -> Result<usize, Refusal>
    ensures { Judged edition m w n result }
{
    judge_front(w, n)?;
    apdu_writer::judge(edition, crate::heads::pdu_of(m, w.window, false, 0))?;
    let count = segments(w.each, n);
    if 256 < count {
        return Err(Refusal::TooManySegments);
    }
    Ok(count)
}

// How long an APDU header is.
fn header_length(m: Message) -> usize
    ensures value { result ≡ header_length m }
    ensures small { result ≤ 6 }
{
    match m {
        Message::Request(_) => 6,
        Message::ComplexAck(_) => 5,
    }
}

// The octets of all NPDUs: two headers a segment, and the parameters.
pub fn size(m: Message, count: usize, n: usize) -> usize
    requires { (count ≤ 256) × (n ≤ 16384) }
    ensures { result ≡ count * (2 + header_length m) + n }
{
    count * (2 + header_length(m)) + n
}
