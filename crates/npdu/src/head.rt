// The header put together from its control octet, its two parts and its end.
ghost use Rattle.std.specs.Prelude.{◌≡◌, ◌≤◌, length};
ghost use Rattle.npdu.specs.Reading.{after_version, reading_of};

use crate::part::{Limits, part_if};
use crate::tail::tail_at;
use crate::{Header, Npdu};
use octets::Refusal;

// The header whose version is good and whose control octet is c.
pub fn after_version(s: &[u8], c: u8) -> Result<Header, Refusal>
    requires { 2 ≤ length s.now }
    ensures { reading_of result ≡ after_version s.now c }
{
    if c % 128 / 64 == 1 || c % 32 / 16 == 1 {
        return Err(Refusal::NpduReserved);
    }
    let dest = c % 64 / 32 == 1;
    let source = c % 16 / 8 == 1;
    let message = c / 128 == 1;
    let d = part_if(s, 2, dest, Limits::DESTINATION)?;
    let q = part_if(s, d.next, source, Limits::SOURCE)?;
    let t = tail_at(s, q.next, dest, message)?;
    // Stays: (c) two variables: the checker does not cover a field that is an array, made part of a literal straight.
    let dadr = d.address.octets;
    let sadr = q.address.octets;
    let npdu = Npdu {
        message,
        dest,
        source,
        reply: c % 8 / 4 == 1,
        priority: c % 4,
        dnet: d.address.network,
        dlen: d.address.length,
        dadr,
        snet: q.address.network,
        slen: q.address.length,
        sadr,
        hops: t.hops,
        kind: t.kind,
        vendor: t.vendor,
    };
    Ok(Header { npdu, next: t.next })
}
