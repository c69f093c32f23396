// What every kind of PDU can be asked.
ghost use Rattle.std.specs.Prelude.{◌≡◌};
ghost use Rattle.apdu.specs.Fields.{kind_of, invoke_of, choice_of, segment_of, params_at};

use super::{
    AbortPdu, ComplexAckPdu, ErrorPdu, Pdu, RejectPdu, RequestPdu, Segment, SegmentAckPdu,
    SimpleAckPdu, UnconfirmedPdu,
};

// The PDU type, 0 to 7.
pub fn kind_of(p: Pdu) -> u8
    ensures { result ≡ kind_of p }
{
    match p {
        Pdu::Request(_) => 0,
        Pdu::Unconfirmed(_) => 1,
        Pdu::SimpleAck(_) => 2,
        Pdu::ComplexAck(_) => 3,
        Pdu::SegmentAck(_) => 4,
        Pdu::Error(_) => 5,
        Pdu::Reject(_) => 6,
        Pdu::Abort(_) => 7,
    }
}

// The invoke ID; 0 for an unconfirmed request, which has none.
pub fn invoke_of(p: Pdu) -> u8
    ensures { result ≡ invoke_of p }
{
    match p {
        Pdu::Request(RequestPdu { invoke, .. })
        | Pdu::SimpleAck(SimpleAckPdu { invoke, .. })
        | Pdu::ComplexAck(ComplexAckPdu { invoke, .. })
        | Pdu::SegmentAck(SegmentAckPdu { invoke, .. })
        | Pdu::Error(ErrorPdu { invoke, .. })
        | Pdu::Reject(RejectPdu { invoke, .. })
        | Pdu::Abort(AbortPdu { invoke, .. }) => invoke,
        Pdu::Unconfirmed(_) => 0,
    }
}

// The service choice; 0 for a segment ack, a reject and an abort, which have none.
pub fn choice_of(p: Pdu) -> u8
    ensures { result ≡ choice_of p }
{
    match p {
        Pdu::Request(RequestPdu { choice, .. })
        | Pdu::Unconfirmed(UnconfirmedPdu { choice })
        | Pdu::SimpleAck(SimpleAckPdu { choice, .. })
        | Pdu::ComplexAck(ComplexAckPdu { choice, .. })
        | Pdu::Error(ErrorPdu { choice, .. }) => choice,
        Pdu::SegmentAck(_) | Pdu::Reject(_) | Pdu::Abort(_) => 0,
    }
}

// Whether the PDU is a segment, with MOR, number and window; no segment for the kinds that are never one.
pub fn segment_of(p: Pdu) -> Segment
    ensures { result ≡ segment_of p }
{
    match p {
        Pdu::Request(RequestPdu { segment, .. }) | Pdu::ComplexAck(ComplexAckPdu { segment, .. }) =>
            segment,
        _ => Segment {
            seg: false,
            mor: false,
            number: 0,
            window: 0,
        },
    }
}

// The place where the parameters begin: the header's length.
#[tactic(auto, using(octets::specs::Rules::flags), unfolding(crate::specs::Fields::tail_end))]
pub fn params_at(p: Pdu) -> usize
    ensures { result ≡ params_at p }
{
    match p {
        Pdu::Request(q) => if q.segment.seg { 6 } else { 4 },
        Pdu::ComplexAck(q) => if q.segment.seg { 5 } else { 3 },
        Pdu::Unconfirmed(_) => 2,
        Pdu::SegmentAck(_) => 4,
        Pdu::SimpleAck(_) | Pdu::Error(_) | Pdu::Reject(_) | Pdu::Abort(_) => 3,
    }
}
