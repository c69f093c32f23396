// The network header's record.
ghost use Rattle.std.specs.Prelude.{◌≡◌, ◌+◌, ◌≤◌, length, take, drop};
ghost use Rattle.records.specs.Network.{front, middle, rest, npdu_record, npdu_at};

use npdu::Npdu;

// Seven octets at a place.
fn seven(o: &[u8], at: usize) -> [u8; 7]
    requires { at + 7 ≤ length o.now }
    ensures { result ≡ take 7 (drop at o.now) }
{
    let mut a = [0; 7];
    a.copy_from_slice(&o[at..at + 7]);
    a
}

// The header that a record is.
pub fn get(o: &[u8]) -> Npdu
    requires { length o.now ≡ 29 }
    ensures { result ≡ npdu_at o.now }
{
    Npdu {
        message: 0 < o[0],
        dest: 0 < o[1],
        source: 0 < o[2],
        reply: 0 < o[3],
        priority: o[4],
        dnet: octets::pair(o[5], o[6]),
        dlen: o[7],
        dadr: seven(o, 8),
        snet: octets::pair(o[15], o[16]),
        slen: o[17],
        sadr: seven(o, 18),
        hops: o[25],
        kind: o[26],
        vendor: octets::pair(o[27], o[28]),
    }
}

// What stands before DADR, between it and SADR, and after that.
fn front(h: Npdu) -> [u8; 8]
    ensures { result ≡ front h }
{
    let [high, low] = h.dnet.to_be_bytes();
    [
        u8::from(h.message),
        u8::from(h.dest),
        u8::from(h.source),
        u8::from(h.reply),
        h.priority,
        high,
        low,
        h.dlen,
    ]
}

fn middle(h: Npdu) -> [u8; 3]
    ensures { result ≡ middle h }
{
    let [high, low] = h.snet.to_be_bytes();
    [high, low, h.slen]
}

fn rest(h: Npdu) -> [u8; 4]
    ensures { result ≡ rest h }
{
    let [high, low] = h.vendor.to_be_bytes();
    [h.hops, h.kind, high, low]
}

// The record of a header.
pub fn put(h: Npdu, out: &mut [u8])
    requires { length out.old ≡ 29 }
    ensures { out.new ≡ npdu_record h }
{
    octets::copy(&front(h), out, 0);
    octets::copy(&h.dadr, out, 8);
    octets::copy(&middle(h), out, 15);
    octets::copy(&h.sadr, out, 18);
    octets::copy(&rest(h), out, 25);
}
