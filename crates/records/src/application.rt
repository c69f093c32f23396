// The APDU header's record.
ghost use Rattle.std.specs.Prelude.{◌≡◌, length};
ghost use Rattle.records.specs.Application.{apdu_record, apdu_at};

use apdu::{
    AbortPdu, ComplexAckPdu, ErrorPdu, Pdu, RejectPdu, RequestPdu, Segment, SegmentAckPdu,
    SimpleAckPdu, UnconfirmedPdu,
};

// The PDU that a record of a type 0 to 7 is.
#[tactic(auto, using(octets::specs::Rules::tests), unfolding(crate::specs::Application::apdu_at, crate::specs::Application::segment_at))]
pub fn get(o: &[u8]) -> Pdu
    requires { length o.now ≡ 13 }
    ensures { result ≡ apdu_at o.now }
{
    let segment = Segment {
        seg: 0 < o[1],
        mor: 0 < o[2],
        number: o[8],
        window: o[9],
    };
    let (invoke, choice, reason) = (o[7], o[10], o[11]);
    match o[0] {
        0 => Pdu::Request(RequestPdu {
            segment,
            sa: 0 < o[3],
            size: o[6],
            invoke,
            choice,
            accepts: o[12],
        }),
        1 => Pdu::Unconfirmed(UnconfirmedPdu { choice }),
        2 => Pdu::SimpleAck(SimpleAckPdu { invoke, choice }),
        3 => Pdu::ComplexAck(ComplexAckPdu {
            segment,
            invoke,
            choice,
        }),
        4 => Pdu::SegmentAck(SegmentAckPdu {
            nak: 0 < o[4],
            srv: 0 < o[5],
            invoke,
            number: o[8],
            window: o[9],
        }),
        5 => Pdu::Error(ErrorPdu { invoke, choice }),
        6 => Pdu::Reject(RejectPdu { invoke, reason }),
        _ => Pdu::Abort(AbortPdu {
            srv: 0 < o[5],
            invoke,
            reason,
        }),
    }
}

fn octets_of(p: Pdu) -> [u8; 13]
    ensures { result ≡ apdu_record p }
{
    match p {
        Pdu::Request(q) => {
            let g = q.segment;
            let (seg, mor, sa) = (u8::from(g.seg), u8::from(g.mor), u8::from(q.sa));
            [
                0, seg, mor, sa, 0, 0, q.size, q.invoke, g.number, g.window, q.choice, 0, q.accepts,
            ]
        }
        Pdu::Unconfirmed(q) => [1, 0, 0, 0, 0, 0, 0, 0, 0, 0, q.choice, 0, 0],
        Pdu::SimpleAck(q) => [2, 0, 0, 0, 0, 0, 0, q.invoke, 0, 0, q.choice, 0, 0],
        Pdu::ComplexAck(q) => {
            let g = q.segment;
            let (seg, mor) = (u8::from(g.seg), u8::from(g.mor));
            [
                3, seg, mor, 0, 0, 0, 0, q.invoke, g.number, g.window, q.choice, 0, 0,
            ]
        }
        Pdu::SegmentAck(q) => {
            let (nak, srv) = (u8::from(q.nak), u8::from(q.srv));
            [
                4, 0, 0, 0, nak, srv, 0, q.invoke, q.number, q.window, 0, 0, 0,
            ]
        }
        Pdu::Error(q) => [5, 0, 0, 0, 0, 0, 0, q.invoke, 0, 0, q.choice, 0, 0],
        Pdu::Reject(q) => [6, 0, 0, 0, 0, 0, 0, q.invoke, 0, 0, 0, q.reason, 0],
        Pdu::Abort(q) => {
            let srv = u8::from(q.srv);
            [7, 0, 0, 0, 0, srv, 0, q.invoke, 0, 0, 0, q.reason, 0]
        }
    }
}

// The record of a PDU's header.
pub fn put(p: Pdu, out: &mut [u8])
    requires { length out.old ≡ 13 }
    ensures { out.new ≡ apdu_record p }
{
    out.copy_from_slice(&octets_of(p));
}
