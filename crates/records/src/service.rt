// The service's record.
ghost use Rattle.std.specs.Prelude.{◌≡◌, length};
ghost use Rattle.records.specs.Service.{pointing, low32, fields_of, field_octets, service_record, fields_at, target_in, span_in, service_of, service_at};

use services::{Fault, IAm, ReadAck, Service, Span, Target, WhoIs, WriteRequest};

// What stands at the record's places, whichever service it is of.
#[derive(Clone, Copy)]
pub struct Fields {
    pub sort: u8,
    pub mark: u8,
    pub short: u16,
    pub first: u32,
    pub second: u32,
    pub third: u32,
    pub place: u32,
    pub len: u32,
    pub ranked: u8,
    pub priority: u8,
}

// A place or a length in four octets.
fn narrow(n: usize) -> u32
    ensures { result ≡ low32 n }
{
    (n % 4294967296) as u32
}

impl Fields {
    // What a service lacks is 0.
    const NONE: Fields = Fields {
        sort: 0,
        mark: 0,
        short: 0,
        first: 0,
        second: 0,
        third: 0,
        place: 0,
        len: 0,
        ranked: 0,
        priority: 0,
    };

    // What points at an object, without a value.
    fn pointing(sort: u8, t: Target) -> Fields
        ensures { result ≡ pointing sort t 0 0 0 0 }
    {
        Fields {
            sort,
            mark: u8::from(t.indexed),
            short: t.object,
            first: t.instance,
            second: t.property,
            third: t.index,
            ..Fields::NONE
        }
    }

    fn octets(self) -> [u8; 26]
        ensures { result ≡ field_octets self }
    {
        let Fields {
            sort,
            mark,
            short,
            first,
            second,
            third,
            place,
            len,
            ranked,
            priority,
        } = self;
        let [s1, s0] = short.to_be_bytes();
        let [a3, a2, a1, a0] = first.to_be_bytes();
        let [b3, b2, b1, b0] = second.to_be_bytes();
        let [c3, c2, c1, c0] = third.to_be_bytes();
        let [p3, p2, p1, p0] = place.to_be_bytes();
        let [l3, l2, l1, l0] = len.to_be_bytes();
        [
            sort, mark, s1, s0, a3, a2, a1, a0, b3, b2, b1, b0, c3, c2, c1, c0, p3, p2, p1, p0, l3,
            l2, l1, l0, ranked, priority,
        ]
    }

    // What a record says.
    fn at(o: &[u8]) -> Fields
        requires { length o.now ≡ 26 }
        ensures { result ≡ fields_at o.now }
    {
        Fields {
            sort: o[0],
            mark: o[1],
            short: octets::pair(o[2], o[3]),
            first: octets::value(o, 4, 4),
            second: octets::value(o, 8, 4),
            third: octets::value(o, 12, 4),
            place: octets::value(o, 16, 4),
            len: octets::value(o, 20, 4),
            ranked: o[24],
            priority: o[25],
        }
    }

    fn target(self) -> Target
        ensures { result ≡ target_in self }
    {
        Target {
            object: self.short,
            instance: self.first,
            property: self.second,
            indexed: 0 < self.mark,
            index: self.third,
        }
    }

    fn span(self) -> Span
        ensures { result ≡ span_in self }
    {
        Span {
            at: self.place as usize,
            len: self.len as usize,
        }
    }
}

impl From<Service> for Fields {
    ghost from_gives = { λ v f. f ≡ fields_of v };

    fn from(v: Service) -> Fields {
        match v {
            Service::ReadProperty(t) => Fields::pointing(0, t),
            Service::ReadPropertyAck(a) => Fields {
                place: narrow(a.value.at),
                len: narrow(a.value.len),
                ..Fields::pointing(1, a.target)
            },
            Service::WriteProperty(w) => Fields {
                place: narrow(w.value.at),
                len: narrow(w.value.len),
                ranked: u8::from(w.ranked),
                priority: w.priority,
                ..Fields::pointing(2, w.target)
            },
            Service::WhoIs(w) => Fields {
                sort: 3,
                mark: u8::from(w.limited),
                first: w.low,
                second: w.high,
                ..Fields::NONE
            },
            Service::IAm(i) => Fields {
                sort: 4,
                mark: i.segmentation,
                short: i.vendor,
                first: i.instance,
                second: i.longest,
                ..Fields::NONE
            },
            Service::Error(f) => Fields {
                sort: 5,
                first: f.class,
                second: f.code,
                ..Fields::NONE
            },
        }
    }
}

impl From<Fields> for Service {
    ghost from_gives = { λ f v. v ≡ service_of f };

    #[tactic(auto, using(octets::specs::Rules::tests), unfolding(crate::specs::Service::service_of))]
    fn from(f: Fields) -> Service {
        match f.sort {
            0 => Service::ReadProperty(f.target()),
            1 => Service::ReadPropertyAck(ReadAck {
                target: f.target(),
                value: f.span(),
            }),
            2 => Service::WriteProperty(WriteRequest {
                target: f.target(),
                value: f.span(),
                ranked: 0 < f.ranked,
                priority: f.priority,
            }),
            3 => Service::WhoIs(WhoIs {
                limited: 0 < f.mark,
                low: f.first,
                high: f.second,
            }),
            4 => Service::IAm(IAm {
                instance: f.first,
                longest: f.second,
                segmentation: f.mark,
                vendor: f.short,
            }),
            _ => Service::Error(Fault {
                class: f.first,
                code: f.second,
            }),
        }
    }
}

// The record of a service.
#[tactic(auto, unfolding(crate::specs::Service::service_record))]
pub fn put(v: Service, out: &mut [u8])
    requires { length out.old ≡ 26 }
    ensures { out.new ≡ service_record v }
{
    out.copy_from_slice(&Fields::from(v).octets());
}

// The service that a record of a sort 0 to 5 is.
#[tactic(auto, unfolding(crate::specs::Service::service_at))]
pub fn get(o: &[u8]) -> Service
    requires { length o.now ≡ 26 }
    ensures { result ≡ service_at o.now }
{
    Service::from(Fields::at(o))
}
