// The two headers of a segment.
ghost use Rattle.std.specs.Prelude.{◌≡◌};
ghost use Rattle.cutter.specs.Layout.{network_head, pdu_of};

use crate::{Message, Way};
use apdu::{ComplexAckPdu, Pdu, RequestPdu, Segment};
use npdu::Npdu;

// The network header: no addresses, and no network layer message.
pub fn network_head(w: Way) -> Npdu
    ensures { result ≡ network_head w }
{
    Npdu {
        reply: w.reply,
        priority: w.priority,
        ..Npdu::ZERO
    }
}

// The APDU header: SEG is set, and MOR where more follow.
pub fn pdu_of(m: Message, window: u8, more: bool, number: u8) -> Pdu
    ensures { result ≡ pdu_of m window more number }
{
    let segment = Segment {
        seg: true,
        mor: more,
        number,
        window,
    };
    match m {
        Message::Request(q) => Pdu::Request(RequestPdu {
            segment,
            sa: q.sa,
            size: q.size,
            invoke: q.invoke,
            choice: q.choice,
            accepts: q.accepts,
        }),
        Message::ComplexAck(q) => Pdu::ComplexAck(ComplexAckPdu {
            segment,
            invoke: q.invoke,
            choice: q.choice,
        }),
    }
}
