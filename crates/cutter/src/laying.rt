// The segments, one after the other.
ghost use Rattle.std.specs.Prelude.{◌≡◌, ◌++◌, ◌+◌, ◌≤◌, length};
ghost use Rattle.octets.specs.Splice.{splice, Put};
ghost use Rattle.npdu.specs.Layout.{encode};
ghost use Rattle.npdu.specs.Fault as Network;
ghost use Rattle.apdu.specs.Layout.{header};
ghost use Rattle.apdu.specs.Fault as Header;
ghost use Rattle.cutter.specs.Layout.{octets_of};
ghost use Rattle.cutter.specs.Laying.{Ready};

use crate::{Message, Way};
use apdu::{Edition, Pdu};
use npdu::Npdu;

// A network header without a fault at a place, and the place after it.
fn put_network(h: Npdu, out: &mut [u8], at: usize) -> usize
    requires { (Network.fault_of h ≡ 0) × (at + length (encode h) ≤ length out.old) }
    ensures { Put out.old at (encode h) result out.new }
{
    at + npdu::write(h, &mut out[at..]).unwrap()
}

// An APDU header without a fault at a place, and the place after it.
fn put_header(edition: Edition, p: Pdu, out: &mut [u8], at: usize) -> usize
    requires { (Header.fault_of edition p ≡ 0) × (at + length (header p) ≤ length out.old) }
    ensures { Put out.old at (header p) result out.new }
{
    at + apdu_writer::write(edition, p, &mut out[at..]).unwrap()
}

// One NPDU at a place, and the place after it: both headers and a part of the parameters.
fn put_npdu(edition: Edition, h: Npdu, p: Pdu, part: &[u8], out: &mut [u8], at: usize) -> usize
    requires { (Network.fault_of h ≡ 0) × (Header.fault_of edition p ≡ 0) × (at + length (encode h ++ (header p ++ part.now)) ≤ length out.old) }
    ensures { Put out.old at (encode h ++ (header p ++ part.now)) result out.new }
{
    let a = put_network(h, out, at);
    let b = put_header(edition, p, out, a);
    octets::copy(part, out, b);
    b + part.len()
}

// All of them from the area's front on: the k-th has the number k, and MOR where it is not the last.
pub fn put_all(edition: Edition, m: Message, w: Way, count: usize, params: &[u8], out: &mut [u8])
    requires { Ready edition m w count params.now out.old }
    ensures { out.new ≡ splice out.old 0 (octets_of m w params.now) }
{
    let head = crate::heads::network_head(w);
    let mut at = 0;
    let mut from = 0;
    for k in 0..count {
        let p = crate::heads::pdu_of(m, w.window, k + 1 < count, k as u8);
        let to = from + (params.len() - from).min(w.each);
        at = put_npdu(edition, head, p, &params[from..to], out, at);
        from = to;
    }
}
