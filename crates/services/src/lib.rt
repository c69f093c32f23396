// The six services, read and written (clause 21).
#![tactic(auto)]

mod others;
mod parts;
mod property;

ghost use Rattle.std.specs.Prelude.{◌≡◌};
ghost use Rattle.octets.specs.Refusal.{numbered};
ghost use Rattle.services.specs.Reading.{layout_for, read_service};
ghost use Rattle.services.specs.Places.{Answers};

use items::Unlisted;
use octets::Refusal;

// What ReadProperty and WriteProperty point at: an object, a property and, where `indexed`, an array index (0 where it is absent).
// Stays: (a) a flag with its value beside it: service_writer::write takes every index of an absent one, and demands `ServicesReadBack` speaks of each.
#[derive(Clone, Copy)]
pub struct Target {
    pub object: u16,
    pub instance: u32,
    pub property: u32,
    pub indexed: bool,
    pub index: u32,
}

// A value: where its octets stand in the parameters.
#[derive(Clone, Copy)]
pub struct Span {
    pub at: usize,
    pub len: usize,
}

#[derive(Clone, Copy)]
pub struct ReadAck {
    pub target: Target,
    pub value: Span,
}

// `ranked`: the priority is present.
// Stays: (a) a flag with its value beside it, as in Target: `ServicesReadBack` speaks of every priority of an absent one.
#[derive(Clone, Copy)]
pub struct WriteRequest {
    pub target: Target,
    pub value: Span,
    pub ranked: bool,
    pub priority: u8,
}

// `limited`: both limits are present.
// Stays: (a) a flag with its values beside it, as in Target: `ServicesReadBack` speaks of all limits of an absent pair.
#[derive(Clone, Copy)]
pub struct WhoIs {
    pub limited: bool,
    pub low: u32,
    pub high: u32,
}

#[derive(Clone, Copy)]
pub struct IAm {
    pub instance: u32,
    pub longest: u32,
    pub segmentation: u8,
    pub vendor: u16,
}

#[derive(Clone, Copy)]
pub struct Fault {
    pub class: u32,
    pub code: u32,
}

#[derive(Clone, Copy)]
pub enum Service {
    ReadProperty(Target),
    ReadPropertyAck(ReadAck),
    WriteProperty(WriteRequest),
    WhoIs(WhoIs),
    IAm(IAm),
    Error(Fault),
}

// Reads the parameters of a PDU of this kind (0 confirmed request, 1 unconfirmed, 3 complex ack, 5 error) and choice.
pub fn read(kind: u8, choice: u8, s: &[u8]) -> Result<Service, Refusal>
    ensures { numbered result ≡ read_service kind choice s.now }
{
    match items::list(s, &mut []) {
        Ok(_) => layout(kind, choice, s),
        // 61 is as good: every tag was judged, and no octets were lent for the records.
        Err(Unlisted::Small(_)) => layout(kind, choice, s),
        Err(Unlisted::Refused(x)) => Err(x),
    }
}

// The layout for the kind and choice, or 43.
fn layout(kind: u8, choice: u8, s: &[u8]) -> Result<Service, Refusal>
    ensures { Answers s.now 0 (layout_for kind choice s.now) (numbered result) }
{
    match (kind, choice) {
        (0, 12) => property::read_property(s),
        (3, 12) => property::read_property_ack(s),
        (0, 15) => property::write_property(s),
        (1, 8) => others::who_is(s),
        (1, 0) => others::i_am(s),
        (5, 12 | 15) => others::error_of(s),
        _ => Err(Refusal::UnknownChoice),
    }
}
