// A reader for each kind of PDU: it is handed a first octet of its type and the octets behind it, and judges them left to right.
ghost use Rattle.std.specs.Prelude.{◌≡◌, suc, ◌∷◌, ◌≤◌};
ghost use Rattle.octets.specs.Refusal.{numbered};
ghost use Rattle.apdu.specs.Reading.{read_tail, read_request, read_unconfirmed, read_simple_ack, read_complex_ack, read_segment_ack, read_error, read_reject, read_abort, two_octets};

use super::{
    AbortPdu, ComplexAckPdu, Edition, ErrorPdu, Pdu, RejectPdu, RequestPdu, Segment, SegmentAckPdu,
    SimpleAckPdu, UnconfirmedPdu,
};
use octets::Refusal;

// What follows the invoke ID of a confirmed request or a complex ack: if SEG, number and window; choice.
#[tactic(auto, using(octets::specs::Rules::tests), unfolding(crate::specs::Reading::read_tail))]
fn read_tail(first: u8, rest: &[u8], at: usize) -> Result<(Segment, u8), Refusal>
    requires { at ≤ 2 }
    ensures { numbered result ≡ read_tail (first ∷ rest.now) (suc at) }
{
    let mor = first % 8 / 4 == 1;
    if first % 16 / 8 == 1 {
        if rest.len() <= at + 1 {
            return Err(Refusal::ApduEndsEarly);
        }
        let (number, window) = (rest[at], rest[at + 1]);
        if window == 0 || 127 < window {
            return Err(Refusal::SizeOrWindow);
        }
        if rest.len() <= at + 2 {
            return Err(Refusal::ApduEndsEarly);
        }
        let segment = Segment {
            seg: true,
            mor,
            number,
            window,
        };
        return Ok((segment, rest[at + 2]));
    }
    if rest.len() <= at {
        return Err(Refusal::ApduEndsEarly);
    }
    let segment = Segment {
        seg: false,
        mor,
        number: 0,
        window: 0,
    };
    Ok((segment, rest[at]))
}

// The two octets behind the first, of a kind whose low bits are at most this and which ends with them.
#[tactic(auto, using(octets::specs::Rules::tests), unfolding(crate::specs::Reading::two_octets))]
fn two_octets(low: u8, first: u8, rest: &[u8]) -> Result<(u8, u8), Refusal>
    ensures { numbered result ≡ two_octets low (first ∷ rest.now) }
{
    if low < first % 16 {
        return Err(Refusal::ApduReserved);
    }
    let &[a, b, ..] = rest else {
        return Err(Refusal::ApduEndsEarly);
    };
    if 2 < rest.len() {
        return Err(Refusal::ApduLeftOver);
    }
    Ok((a, b))
}

#[tactic(auto, using(octets::specs::Rules::tests), unfolding(crate::specs::Reading::read_request))]
pub fn read_request(edition: Edition, first: u8, rest: &[u8]) -> Result<Pdu, Refusal>
    ensures { numbered result ≡ read_request edition (first ∷ rest.now) }
{
    if 0 < first % 2 || first % 16 / 4 == 1 {
        return Err(Refusal::ApduReserved);
    }
    let &[second, ..] = rest else {
        return Err(Refusal::ApduEndsEarly);
    };
    if super::most(edition) < second / 16 {
        return Err(Refusal::ApduReserved);
    }
    if 5 < second % 16 {
        return Err(Refusal::SizeOrWindow);
    }
    let &[_, invoke, ..] = rest else {
        return Err(Refusal::ApduEndsEarly);
    };
    // Stays: (b) a match, here and in `read_complex_ack`: by `?` or `map` the receiver pays 25 instructions more for each of these headers.
    match read_tail(first, rest, 2) {
        Ok((segment, choice)) => Ok(Pdu::Request(RequestPdu {
            segment,
            sa: first % 4 / 2 == 1,
            size: second % 16,
            invoke,
            choice,
            accepts: second / 16,
        })),
        Err(r) => Err(r),
    }
}

#[tactic(auto, using(octets::specs::Rules::tests), unfolding(crate::specs::Reading::read_unconfirmed))]
pub fn read_unconfirmed(first: u8, rest: &[u8]) -> Result<Pdu, Refusal>
    ensures { numbered result ≡ read_unconfirmed (first ∷ rest.now) }
{
    if 0 < first % 16 {
        return Err(Refusal::ApduReserved);
    }
    let &[choice, ..] = rest else {
        return Err(Refusal::ApduEndsEarly);
    };
    Ok(Pdu::Unconfirmed(UnconfirmedPdu { choice }))
}

#[tactic(auto, using(crate::proofs::Twos::simple_ack_two))]
pub fn read_simple_ack(first: u8, rest: &[u8]) -> Result<Pdu, Refusal>
    ensures { numbered result ≡ read_simple_ack (first ∷ rest.now) }
{
    let (invoke, choice) = two_octets(0, first, rest)?;
    Ok(Pdu::SimpleAck(SimpleAckPdu { invoke, choice }))
}

#[tactic(auto, using(octets::specs::Rules::tests), unfolding(crate::specs::Reading::read_complex_ack))]
pub fn read_complex_ack(first: u8, rest: &[u8]) -> Result<Pdu, Refusal>
    ensures { numbered result ≡ read_complex_ack (first ∷ rest.now) }
{
    if 0 < first % 4 || first % 16 / 4 == 1 {
        return Err(Refusal::ApduReserved);
    }
    let &[invoke, ..] = rest else {
        return Err(Refusal::ApduEndsEarly);
    };
    match read_tail(first, rest, 1) {
        Ok((segment, choice)) => Ok(Pdu::ComplexAck(ComplexAckPdu {
            segment,
            invoke,
            choice,
        })),
        Err(r) => Err(r),
    }
}

#[tactic(auto, using(octets::specs::Rules::tests), unfolding(crate::specs::Reading::read_segment_ack))]
pub fn read_segment_ack(first: u8, rest: &[u8]) -> Result<Pdu, Refusal>
    ensures { numbered result ≡ read_segment_ack (first ∷ rest.now) }
{
    if 3 < first % 16 {
        return Err(Refusal::ApduReserved);
    }
    let &[invoke, number, window, ..] = rest else {
        return Err(Refusal::ApduEndsEarly);
    };
    if window == 0 || 127 < window {
        return Err(Refusal::SizeOrWindow);
    }
    if 3 < rest.len() {
        return Err(Refusal::ApduLeftOver);
    }
    Ok(Pdu::SegmentAck(SegmentAckPdu {
        nak: first % 4 / 2 == 1,
        srv: first % 2 == 1,
        invoke,
        number,
        window,
    }))
}

#[tactic(auto, using(octets::specs::Rules::tests), unfolding(crate::specs::Reading::read_error))]
pub fn read_error(first: u8, rest: &[u8]) -> Result<Pdu, Refusal>
    ensures { numbered result ≡ read_error (first ∷ rest.now) }
{
    if 0 < first % 16 {
        return Err(Refusal::ApduReserved);
    }
    let &[invoke, choice, ..] = rest else {
        return Err(Refusal::ApduEndsEarly);
    };
    Ok(Pdu::Error(ErrorPdu { invoke, choice }))
}

#[tactic(auto, using(crate::proofs::Twos::reject_two))]
pub fn read_reject(first: u8, rest: &[u8]) -> Result<Pdu, Refusal>
    ensures { numbered result ≡ read_reject (first ∷ rest.now) }
{
    let (invoke, reason) = two_octets(0, first, rest)?;
    Ok(Pdu::Reject(RejectPdu { invoke, reason }))
}

#[tactic(auto, using(crate::proofs::Twos::abort_two))]
pub fn read_abort(first: u8, rest: &[u8]) -> Result<Pdu, Refusal>
    ensures { numbered result ≡ read_abort (first ∷ rest.now) }
{
    let (invoke, reason) = two_octets(1, first, rest)?;
    Ok(Pdu::Abort(AbortPdu {
        srv: first % 2 == 1,
        invoke,
        reason,
    }))
}
