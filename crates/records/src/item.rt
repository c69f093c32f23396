// An item's record, as listing lays it, at depth 0.
ghost use Rattle.std.specs.Prelude.{◌≡◌, length};
ghost use Rattle.items.specs.Records.{rec, record_octets};

fn octets_of(kind: u8, number: u8, value: u8, place: usize, len: usize) -> [u8; 12]
    ensures { result ≡ record_octets (rec kind number 0 value place len) }
{
    let [.., p3, p2, p1, p0] = place.to_be_bytes();
    let [.., l3, l2, l1, l0] = len.to_be_bytes();
    [kind, number, 0, value, p3, p2, p1, p0, l3, l2, l1, l0]
}

// The record of an item.
pub fn put(kind: u8, number: u8, value: u8, place: usize, len: usize, out: &mut [u8])
    requires { length out.old ≡ 12 }
    ensures { out.new ≡ record_octets (rec kind number 0 value place len) }
{
    out.copy_from_slice(&octets_of(kind, number, value, place, len));
}
