// Who-Is, I-Am and Error.
ghost use Rattle.octets.specs.Refusal.{numbered};
ghost use Rattle.services.specs.Reading.{who_is, i_am, error_of};
ghost use Rattle.services.specs.Places.{Answers, limits_part};

use crate::parts::{device, last, number, present};
use crate::{Fault, IAm, Service, WhoIs};
use octets::Refusal;
use tags::Class;

// None, or both limits.
pub fn who_is(s: &[u8]) -> Result<Service, Refusal>
    ensures { Answers s.now 0 (who_is s.now) (numbered result) }
{
    if present(s, 0, 0) {
        return limits(s);
    }
    last(
        s,
        0,
        Service::WhoIs(WhoIs {
            limited: false,
            low: 0,
            high: 0,
        }),
    )
}

// The low limit, and the high limit not below it.
fn limits(s: &[u8]) -> Result<Service, Refusal>
    ensures { Answers s.now 0 (limits_part s.now) (numbered result) }
{
    let (low, next) = number(s, 0, Class::Context, 0, 0, 4194303)?;
    let (high, next) = number(s, next, Class::Context, 1, low, 4194303)?;
    last(
        s,
        next,
        Service::WhoIs(WhoIs {
            limited: true,
            low,
            high,
        }),
    )
}

// The device, the longest APDU that it takes, how it takes segments, and its vendor.
pub fn i_am(s: &[u8]) -> Result<Service, Refusal>
    ensures { Answers s.now 0 (i_am s.now) (numbered result) }
{
    let (v, next) = device(s, 0)?;
    let (longest, next) = number(s, next, Class::Application, 2, 0, u32::MAX)?;
    let (segmentation, next) = number(s, next, Class::Application, 9, 0, 3)?;
    let (vendor, next) = number(s, next, Class::Application, 2, 0, 65535)?;
    last(
        s,
        next,
        Service::IAm(IAm {
            instance: v % 4194304,
            longest,
            segmentation: segmentation as u8,
            vendor: vendor as u16,
        }),
    )
}

// The class and the code.
pub fn error_of(s: &[u8]) -> Result<Service, Refusal>
    ensures { Answers s.now 0 (error_of s.now) (numbered result) }
{
    let (class, next) = number(s, 0, Class::Application, 9, 0, u32::MAX)?;
    let (code, next) = number(s, next, Class::Application, 9, 0, u32::MAX)?;
    last(s, next, Service::Error(Fault { class, code }))
}
