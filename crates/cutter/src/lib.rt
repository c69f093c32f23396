// Messages cut into segments, each behind a network header without addresses.
#![tactic(auto)]

mod heads; // heads.rt: the two headers of a segment
mod judge; // judge.rt: what is refused, and the number of segments
mod laying; // laying.rt: the segments, one after the other

ghost use Rattle.std.specs.Prelude.{◌≡◌};
ghost use Rattle.octets.specs.Refusal.{fault_of};
ghost use Rattle.cutter.specs.Calls.{Cuts, parted_of};
ghost use Rattle.cutter.specs.Fault.{front_fault};

use apdu::Edition;
use octets::Refusal;

// A confirmed request that is to be cut: its fields but SEG, MOR, number and window.
#[derive(Clone, Copy)]
pub struct WholeRequest {
    pub sa: bool,
    pub size: u8,
    pub invoke: u8,
    pub choice: u8,
    pub accepts: u8,
}

// A complex ack that is to be cut.
#[derive(Clone, Copy)]
pub struct WholeAck {
    pub invoke: u8,
    pub choice: u8,
}

// The two PDUs that have segments.
#[derive(Clone, Copy)]
pub enum Message {
    Request(WholeRequest),
    ComplexAck(WholeAck),
}

// How it is cut: reply expected and priority of the network header, the window, and the parameter octets of a segment.
#[derive(Clone, Copy)]
pub struct Way {
    pub reply: bool,
    pub priority: u8,
    pub window: u8,
    pub each: usize,
}

// What was written: the octets, and the number of segments.
#[derive(Clone, Copy)]
pub struct Extent {
    pub octets: usize,
    pub segments: usize,
}

// Whether n parameter octets may be cut so, before the message itself is looked at: 39, 64 or 12.
pub fn judge_front(w: Way, n: usize) -> Result<(), Refusal>
    ensures { fault_of result ≡ front_fault w n }
{
    judge::judge_front(w, n)
}

// All NPDUs end to end at the area's front, all but the last of the same length; or 39, 64, 12, 22, 23, 63 or 61, before the first octet is written.
pub fn cut(
    edition: Edition,
    m: Message,
    w: Way,
    params: &[u8],
    out: &mut [u8],
) -> Result<Extent, Refusal>
    ensures { Cuts edition m w params.now out.old (parted_of result) out.new }
{
    let segments = judge::judge(edition, m, w, params.len())?;
    let octets = judge::size(m, segments, params.len());
    if out.len() < octets {
        return Err(Refusal::TooSmall);
    }
    laying::put_all(edition, m, w, segments, params, out);
    Ok(Extent { octets, segments })
}
