// The network header (clause 6.2), read and written.
#![tactic(auto)]

pub mod addresses; // addresses.rt: a header's source and destination as values
mod fault;
mod head;
mod layout;
mod part;
mod tail;

ghost use Rattle.std.specs.Prelude.{◌≡◌};
ghost use Rattle.octets.specs.Laid.{Laid};
ghost use Rattle.octets.specs.Refusal.{numbered};
ghost use Rattle.npdu.specs.Layout.{encode};
ghost use Rattle.npdu.specs.Fault.{fault_of};
ghost use Rattle.npdu.specs.Reading.{read_npdu, reading_of};

use octets::Refusal;

// A header's fields. Those of an absent part, and address octets past the length, are read as 0 and are not looked at in writing.
// Stays: (a) flags with values beside them: npdu/Trips `written_reads` and demands `NetworkWritesBack` speak of headers with any values in an absent part, which no writer looks at.
#[derive(Clone, Copy)]
pub struct Npdu {
    pub message: bool,
    pub dest: bool,
    pub source: bool,
    pub reply: bool,
    pub priority: u8,
    pub dnet: u16,
    pub dlen: u8,
    pub dadr: [u8; 7],
    pub snet: u16,
    pub slen: u8,
    pub sadr: [u8; 7],
    pub hops: u8,
    pub kind: u8,
    pub vendor: u16,
}

impl Npdu {
    // A header of zeros: no address, no network message, no reply expected.
    pub const ZERO: Npdu = Npdu {
        message: false,
        dest: false,
        source: false,
        reply: false,
        priority: 0,
        dnet: 0,
        dlen: 0,
        dadr: [0; 7],
        snet: 0,
        slen: 0,
        sadr: [0; 7],
        hops: 0,
        kind: 0,
        vendor: 0,
    };
}

// An address on a network: a header's source or its destination. Without one, present is false and all else 0.
// Stays: (a) a flag with values beside it: npdu/Address `settled` and state/Judging `slot_fair` tell absent addresses with other octets, which a state area can hold, from none.
#[derive(Clone, Copy, PartialEq, Eq)]
pub struct Address {
    pub present: bool,
    pub network: u16,
    pub length: u8,
    pub octets: [u8; 7],
}

impl Address {
    // No address: all zero.
    pub const NONE: Address = Address {
        present: false,
        network: 0,
        length: 0,
        octets: [0; 7],
    };
}

// What reading gives: the header, and the place where what follows it begins.
#[derive(Clone, Copy)]
pub struct Header {
    pub npdu: Npdu,
    pub next: usize,
}

// The header at the front of these octets, or 10 to 14. Each octet is reached before it is judged.
#[tactic(auto, using(octets::specs::Rules::tests), unfolding(crate::specs::Reading::read_npdu))]
pub fn read(s: &[u8]) -> Result<Header, Refusal>
    ensures { reading_of result ≡ read_npdu s.now }
{
    if part::octet(s, 0)? != 1 {
        return Err(Refusal::NpduVersion);
    }
    let control = part::octet(s, 1)?;
    head::after_version(s, control)
}

// The header's octets at the front of a lent area, or the number of the first field that breaks a rule (12, 14, 13), or 61.
pub fn write(h: Npdu, out: &mut [u8]) -> Result<usize, Refusal>
    ensures { Laid (fault_of h) (encode h) out.old (numbered result) out.new }
{
    fault::judge_head(h)?;
    let n = layout::size(h);
    if out.len() < n {
        return Err(Refusal::TooSmall);
    }
    layout::put_head(out, h);
    Ok(n)
}
