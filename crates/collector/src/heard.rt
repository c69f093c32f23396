// What a good frame hands down, the network header's two addresses, an APDU taken apart once, and what the frame says by itself.
ghost use Rattle.std.specs.Prelude.{◌≡◌};
ghost use Rattle.collector.specs.Heard.{frame_of, heard_of, route_of, parts_of};

use apdu::{Edition, Pdu, Segment, fields};
use npdu::{Address, Npdu, addresses};
use reports::{Apdu, Frame};

// What holds of the whole frame: its type, destination and source, and the edition by which it is read.
#[derive(Clone, Copy)]
pub struct Heard {
    pub frame: Frame,
    pub edition: Edition,
}

// Type, destination and source, from the frame's head.
pub(crate) fn frame_of(head: [u8; 5]) -> Frame
    ensures { result ≡ frame_of head }
{
    Frame {
        kind: head[0],
        destination: head[1],
        source: head[2],
    }
}

// From the frame's head, and the edition.
pub fn heard_of(edition: Edition, head: [u8; 5]) -> Heard
    ensures { result ≡ heard_of edition head }
{
    Heard {
        frame: frame_of(head),
        edition,
    }
}

// Where a message comes from and where it goes, behind a router or not.
#[derive(Clone, Copy)]
pub struct Route {
    pub source: Address,
    pub destination: Address,
}

// From the network header that was read.
impl From<Npdu> for Route {
    ghost from_gives = { λ h r. r ≡ route_of h };

    fn from(h: Npdu) -> Route {
        Route {
            source: addresses::source_of(h),
            destination: addresses::destination_of(h),
        }
    }
}

// An APDU as it is used here: its type, what a report says of it, its segment part, and where its parameters begin.
#[derive(Clone, Copy)]
pub struct Parts {
    pub kind: u8,
    pub apdu: Apdu,
    pub segment: Segment,
    pub params: usize,
}

// From the PDU that was read and its first octet.
#[tactic(auto, unfolding(crate::specs::Heard::parts_of))]
pub fn parts_of(p: Pdu, first: u8) -> Parts
    ensures { result ≡ parts_of p first }
{
    let apdu = Apdu {
        first,
        invoke: fields::invoke_of(p),
        choice: fields::choice_of(p),
    };
    Parts {
        kind: fields::kind_of(p),
        apdu,
        segment: fields::segment_of(p),
        params: fields::params_at(p),
    }
}

// A segment that a frame of type 5 or 6 carries, and where its APDU begins.
#[derive(Clone, Copy)]
pub struct Told {
    pub at: usize,
    pub route: Route,
    pub parts: Parts,
}
