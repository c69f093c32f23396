// The first field in octet order that breaks a rule refuses a header.
ghost use Rattle.std.specs.Prelude.{◌≡◌};
ghost use Rattle.octets.specs.Refusal as refusal;
ghost use Rattle.apdu.specs.Fault.{mor_fault, window_fault, segment_fault, or_else, fault_of};
ghost use Rattle.apdu.specs.declared.Pdu.TheVariants.{Request};

use apdu::{ComplexAckPdu, Edition, Pdu, RequestPdu, Segment};
use octets::Refusal;

// MOR needs SEG.
#[tactic(auto, using(octets::specs::Rules::flags), unfolding(apdu::specs::Fault::mor_fault))]
fn judge_mor(g: Segment) -> Result<(), Refusal>
    ensures { refusal.fault_of result ≡ mor_fault g }
{
    if g.mor && !g.seg {
        return Err(Refusal::ApduReserved);
    }
    Ok(())
}

// Windows are 1 to 127.
#[tactic(auto, using(octets::specs::Rules::tests), unfolding(apdu::specs::Fault::window_fault))]
fn judge_window(w: u8) -> Result<(), Refusal>
    ensures { refusal.fault_of result ≡ window_fault w }
{
    if w == 0 || 127 < w {
        return Err(Refusal::SizeOrWindow);
    }
    Ok(())
}

// The window of a segment; without SEG it is absent.
#[tactic(auto, using(octets::specs::Rules::flags), unfolding(apdu::specs::Fault::segment_fault))]
fn judge_segment(g: Segment) -> Result<(), Refusal>
    ensures { refusal.fault_of result ≡ segment_fault g }
{
    if g.seg {
        judge_window(g.window)
    } else {
        Ok(())
    }
}

#[tactic(auto, using(octets::specs::Rules::tests, crate::proofs::Judged::judged), unfolding(apdu::specs::Fault::code_fault, apdu::specs::Fault::size_fault))]
fn judge_request(edition: Edition, p: RequestPdu) -> Result<(), Refusal>
    ensures { refusal.fault_of result ≡ fault_of edition (Request p) }
{
    judge_mor(p.segment)?;
    if apdu::most(edition) < p.accepts {
        return Err(Refusal::ApduReserved);
    }
    if 5 < p.size {
        return Err(Refusal::SizeOrWindow);
    }
    judge_segment(p.segment)
}

#[tactic(auto, using(crate::proofs::Judged::judged))]
fn judge_complex_ack(p: ComplexAckPdu) -> Result<(), Refusal>
    ensures { refusal.fault_of result ≡ or_else (mor_fault p.segment) (segment_fault p.segment) }
{
    judge_mor(p.segment)?;
    judge_segment(p.segment)
}

// Whether a header may be written, whatever the area.
pub fn judge(edition: Edition, p: Pdu) -> Result<(), Refusal>
    ensures { refusal.fault_of result ≡ fault_of edition p }
{
    match p {
        Pdu::Request(q) => judge_request(edition, q),
        Pdu::ComplexAck(q) => judge_complex_ack(q),
        Pdu::SegmentAck(q) => judge_window(q.window),
        Pdu::Unconfirmed(_) | Pdu::SimpleAck(_) | Pdu::Error(_) | Pdu::Reject(_) | Pdu::Abort(_) =>
            Ok(()),
    }
}
