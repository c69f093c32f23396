// APDU headers (clause 20.1): the eight kinds of PDU, and their reading.
#![tactic(auto)]

ghost use Rattle.std.specs.Prelude.{◌≡◌};
ghost use Rattle.apdu.specs.Editions.{most};
ghost use Rattle.octets.specs.Refusal.{numbered};
ghost use Rattle.apdu.specs.Reading.{read_apdu};

use octets::Refusal;

mod kinds; // kinds.rt: a reader for each kind of PDU
pub mod fields; // fields.rt: what every kind of PDU can be asked

// The edition of the standard by which confirmed requests are read and written: the first, of 1995, or the later one,
// which uses bits 6 to 4 of their second octet for the segments they accept.
#[derive(Clone, Copy)]
pub enum Edition {
    First,
    Later,
}

// The greatest code of segments accepted that an edition has: with 0 alone, bits 7 to 4 of the second octet are zero bits.
pub fn most(edition: Edition) -> u8
    ensures { result ≡ most edition }
{
    match edition {
        Edition::First => 0,
        Edition::Later => 7,
    }
}

// What a confirmed request and a complex ack say of segments. Without SEG, number and window are absent: 0 as read.
// Stays: (a) a flag beside its values, since specs/Fault `mor_fault` refuses MOR without SEG (22), for which an Option has no place.
#[derive(Clone, Copy)]
pub struct Segment {
    pub seg: bool,
    pub mor: bool,
    pub number: u8,
    pub window: u8,
}

// Segments accepted: 0 unspecified, 1 to 6 for 2, 4, 8, 16, 32 and 64, 7 for more than 64; 0 in the 1995 edition.
#[derive(Clone, Copy)]
pub struct RequestPdu {
    pub segment: Segment,
    pub sa: bool,
    pub size: u8,
    pub invoke: u8,
    pub choice: u8,
    pub accepts: u8,
}

#[derive(Clone, Copy)]
pub struct UnconfirmedPdu {
    pub choice: u8,
}

#[derive(Clone, Copy)]
pub struct SimpleAckPdu {
    pub invoke: u8,
    pub choice: u8,
}

#[derive(Clone, Copy)]
pub struct ComplexAckPdu {
    pub segment: Segment,
    pub invoke: u8,
    pub choice: u8,
}

#[derive(Clone, Copy)]
pub struct SegmentAckPdu {
    pub nak: bool,
    pub srv: bool,
    pub invoke: u8,
    pub number: u8,
    pub window: u8,
}

// Stays: (d) the same fields as `SimpleAckPdu`, but another kind of the document, with parameters behind it: `Pdu::Error(SimpleAckPdu)` misnames it.
#[derive(Clone, Copy)]
pub struct ErrorPdu {
    pub invoke: u8,
    pub choice: u8,
}

#[derive(Clone, Copy)]
pub struct RejectPdu {
    pub invoke: u8,
    pub reason: u8,
}

#[derive(Clone, Copy)]
pub struct AbortPdu {
    pub srv: bool,
    pub invoke: u8,
    pub reason: u8,
}

// The kind of PDU and, inside that, its own fields. Parameters begin at fields::params_at and are the rest of the octets.
#[derive(Clone, Copy)]
pub enum Pdu {
    Request(RequestPdu),
    Unconfirmed(UnconfirmedPdu),
    SimpleAck(SimpleAckPdu),
    ComplexAck(ComplexAckPdu),
    SegmentAck(SegmentAckPdu),
    Error(ErrorPdu),
    Reject(RejectPdu),
    Abort(AbortPdu),
}

// The high four bits of the first octet are the type.
#[tactic(auto, using(octets::specs::Rules::tests), unfolding(crate::specs::Reading::read_apdu))]
pub fn read(edition: Edition, s: &[u8]) -> Result<Pdu, Refusal>
    ensures { numbered result ≡ read_apdu edition s.now }
{
    let &[first, ref rest @ ..] = s else {
        return Err(Refusal::ApduEndsEarly);
    };
    match first / 16 {
        0 => kinds::read_request(edition, first, rest),
        1 => kinds::read_unconfirmed(first, rest),
        2 => kinds::read_simple_ack(first, rest),
        3 => kinds::read_complex_ack(first, rest),
        4 => kinds::read_segment_ack(first, rest),
        5 => kinds::read_error(first, rest),
        6 => kinds::read_reject(first, rest),
        7 => kinds::read_abort(first, rest),
        _ => Err(Refusal::ApduType),
    }
}
