// The octets of each kind of header, laid over the front of an area that holds them.
ghost use Rattle.std.specs.Prelude.{◌≡◌, length, ◌+◌, ◌≤◌, get_or, false};
ghost use Rattle.octets.specs.Splice.{splice};
ghost use Rattle.apdu.specs.Layout.{first_octet, tail, header};
ghost use Rattle.apdu.specs.Rows.{Fits};
ghost use Rattle.apdu.specs.declared.Pdu.TheVariants.{Request, ComplexAck};

use apdu::{ComplexAckPdu, Pdu, RequestPdu, Segment};

// The type in the high four bits, then bits 3 to 0.
#[tactic(auto, using(crate::proofs::Cases::bits), unfolding(apdu::specs::Layout::first_octet))]
fn first_octet(kind: u8, bits: [bool; 4]) -> u8
    requires { kind ≤ 7 }
    ensures { result ≡ first_octet kind (get_or bits 0 false) (get_or bits 1 false) (get_or bits 2 false) (get_or bits 3 false) }
{
    let [b3, b2, b1, b0] = bits;
    kind * 16 + u8::from(b3) * 8 + u8::from(b2) * 4 + u8::from(b1) * 2 + u8::from(b0)
}

// The first octet of a kind without low bits.
#[tactic(auto, unfolding(apdu::specs::Layout::first_octet, apdu::specs::Layout::flag, octets::specs::Choice::given))]
fn plain(kind: u8) -> u8
    requires { kind ≤ 7 }
    ensures { result ≡ first_octet kind false false false false }
{
    kind * 16
}

// If SEG, number and window; choice.
#[tactic(auto, using(octets::specs::Rules::flags), unfolding(apdu::specs::Layout::tail))]
fn put_tail(out: &mut [u8], at: usize, g: Segment, choice: u8)
    requires { at + length (tail g choice) ≤ length out.old }
    ensures { out.new ≡ splice out.old at (tail g choice) }
{
    if g.seg {
        octets::copy(&[g.number, g.window, choice], out, at);
    } else {
        octets::put(out, at, choice);
    }
}

fn put_request(p: RequestPdu, out: &mut [u8])
    requires { (length (header (Request p)) ≤ length out.old) × Fits (Request p) }
    ensures { out.new ≡ splice out.old 0 (header (Request p)) }
{
    let g = p.segment;
    let first = first_octet(0, [g.seg, g.mor, p.sa, false]);
    octets::copy(&[first, p.accepts * 16 + p.size, p.invoke], out, 0);
    put_tail(out, 3, g, p.choice);
}

fn put_complex_ack(p: ComplexAckPdu, out: &mut [u8])
    requires { length (header (ComplexAck p)) ≤ length out.old }
    ensures { out.new ≡ splice out.old 0 (header (ComplexAck p)) }
{
    let g = p.segment;
    let first = first_octet(3, [g.seg, g.mor, false, false]);
    octets::copy(&[first, p.invoke], out, 0);
    put_tail(out, 2, g, p.choice);
}

pub fn put_header(p: Pdu, out: &mut [u8])
    requires { (length (header p) ≤ length out.old) × Fits p }
    ensures { out.new ≡ splice out.old 0 (header p) }
{
    match p {
        Pdu::Request(q) => put_request(q, out),
        Pdu::Unconfirmed(q) => octets::copy(&[plain(1), q.choice], out, 0),
        Pdu::SimpleAck(q) => octets::copy(&[plain(2), q.invoke, q.choice], out, 0),
        Pdu::ComplexAck(q) => put_complex_ack(q, out),
        Pdu::SegmentAck(q) => {
            let first = first_octet(4, [false, false, q.nak, q.srv]);
            octets::copy(&[first, q.invoke, q.number, q.window], out, 0);
        }
        Pdu::Error(q) => octets::copy(&[plain(5), q.invoke, q.choice], out, 0),
        Pdu::Reject(q) => octets::copy(&[plain(6), q.invoke, q.reason], out, 0),
        Pdu::Abort(q) => {
            let first = first_octet(7, [false, false, false, q.srv]);
            octets::copy(&[first, q.invoke, q.reason], out, 0);
        }
    }
}
