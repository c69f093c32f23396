// The report: one record of 16 octets; its seven kinds by name, and its writer.
#![tactic(auto)]

ghost use Rattle.std.specs.Prelude.{◌≡◌, length};
ghost use Rattle.reports.specs.Layout.{report_size, report_octets};
ghost use Rattle.reports.specs.Kinds.{other_frame, damaged, unsegmented, segment_taken, complete, refusal, network_message};

// The octets of a report.
pub const SIZE: usize = 16;

// What a report says of its frame: type, destination and source.
#[derive(Clone, Copy)]
pub struct Frame {
    pub kind: u8,
    pub destination: u8,
    pub source: u8,
}

impl Frame {
    // Damage has no frame.
    pub const NONE: Frame = Frame {
        kind: 0,
        destination: 0,
        source: 0,
    };
}

// What a report says of an APDU: its first octet, invoke ID and service choice.
#[derive(Clone, Copy)]
pub struct Apdu {
    pub first: u8,
    pub invoke: u8,
    pub choice: u8,
}

impl Apdu {
    pub const NONE: Apdu = Apdu {
        first: 0,
        invoke: 0,
        choice: 0,
    };
}

// All that a report says; what its kind or PDU lacks is 0.
// Stays: (a) kind and refusal are numbers, octets 0 and 1 of the record that C reads, and any octet is read back there (specs/Reading: `report_at`).
#[derive(Clone, Copy)]
pub struct Report {
    pub kind: u8,
    pub number: u8,
    pub frame: Frame,
    pub apdu: Apdu,
    pub slot: u8,
    pub length: u32,
}

// Stays: (d) a function for each kind, though two and two differ in its number alone: they have the page's names, and each its definition (specs/Kinds).
impl Report {
    // What a kind does not fill is 0.
    const NONE: Report = Report {
        kind: 0,
        number: 0,
        frame: Frame::NONE,
        apdu: Apdu::NONE,
        slot: 0,
        length: 0,
    };

    // Kind 1: a frame of a type other than 5 and 6, and the octets of its data.
    pub fn other_frame(frame: Frame, length: u32) -> Report
        ensures { result ≡ other_frame frame length }
    {
        Report {
            kind: 1,
            frame,
            length,
            ..Report::NONE
        }
    }

    // Kind 2: damage, its number alone.
    pub fn damaged(number: u8) -> Report
        ensures { result ≡ damaged number }
    {
        Report {
            kind: 2,
            number,
            ..Report::NONE
        }
    }

    // Kind 3: an unsegmented APDU, and its octets.
    pub fn unsegmented(frame: Frame, apdu: Apdu, length: u32) -> Report
        ensures { result ≡ unsegmented frame apdu length }
    {
        Report {
            kind: 3,
            frame,
            apdu,
            length,
            ..Report::NONE
        }
    }

    // Kind 4: a segment with MOR that was taken, its slot and the octets held so far.
    pub fn segment_taken(frame: Frame, apdu: Apdu, slot: u8, length: u32) -> Report
        ensures { result ≡ segment_taken frame apdu slot length }
    {
        Report {
            kind: 4,
            frame,
            apdu,
            slot,
            length,
            ..Report::NONE
        }
    }

    // Kind 5: a message complete, its slot and its octets in all.
    pub fn complete(frame: Frame, apdu: Apdu, slot: u8, length: u32) -> Report
        ensures { result ≡ complete frame apdu slot length }
    {
        Report {
            kind: 5,
            frame,
            apdu,
            slot,
            length,
            ..Report::NONE
        }
    }

    // Kind 6: refused, the number.
    pub fn refusal(frame: Frame, number: u8) -> Report
        ensures { result ≡ refusal frame number }
    {
        Report {
            kind: 6,
            number,
            frame,
            ..Report::NONE
        }
    }

    // Kind 7: a network layer message, and the octets after its type (and vendor).
    pub fn network_message(frame: Frame, length: u32) -> Report
        ensures { result ≡ network_message frame length }
    {
        Report {
            kind: 7,
            frame,
            length,
            ..Report::NONE
        }
    }
}

// All its octets, over an area of as many.
pub fn put(r: Report, out: &mut [u8])
    requires { length out.old ≡ report_size }
    ensures { out.new ≡ report_octets r }
{
    let Report { frame, apdu, .. } = r;
    let [a, b, c, d] = r.length.to_be_bytes();
    out.copy_from_slice(&[
        r.kind,
        r.number,
        frame.kind,
        frame.destination,
        frame.source,
        apdu.first,
        apdu.invoke,
        r.slot,
        a,
        b,
        c,
        d,
        apdu.choice,
        0,
        0,
        0,
    ]);
}
