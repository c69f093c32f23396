// ReadProperty, its ack, and WriteProperty.
ghost use Rattle.octets.specs.Refusal.{numbered};
ghost use Rattle.services.specs.Reading.{target_parts, read_property, read_property_ack, write_property};
ghost use Rattle.services.specs.Places.{Answers, Says};

use crate::parts::{group, last, number, object, optional_number};
use crate::{ReadAck, Service, Target, WriteRequest};
use octets::Refusal;
use tags::Class;

// Context 0 object, 1 property, optional 2 index.
fn target(s: &[u8]) -> Result<(Target, usize), Refusal>
    ensures { Says s.now 0 (target_parts s.now) (numbered result) }
{
    let (v, next) = object(s, 0)?;
    let (property, next) = number(s, next, Class::Context, 1, 0, u32::MAX)?;
    let (index, next) = optional_number(s, next, 2, 0, u32::MAX)?;
    let target = Target {
        object: (v / 4194304) as u16,
        instance: v % 4194304,
        property,
        indexed: index.is_some(),
        index: index.unwrap_or(0),
    };
    Ok((target, next))
}

pub fn read_property(s: &[u8]) -> Result<Service, Refusal>
    ensures { Answers s.now 0 (read_property s.now) (numbered result) }
{
    let (target, next) = target(s)?;
    last(s, next, Service::ReadProperty(target))
}

// The target, and a group 3, the value.
pub fn read_property_ack(s: &[u8]) -> Result<Service, Refusal>
    ensures { Answers s.now 0 (read_property_ack s.now) (numbered result) }
{
    let (target, next) = target(s)?;
    let (value, next) = group(s, next, 3)?;
    last(s, next, Service::ReadPropertyAck(ReadAck { target, value }))
}

// As the ack, with an optional priority.
pub fn write_property(s: &[u8]) -> Result<Service, Refusal>
    ensures { Answers s.now 0 (write_property s.now) (numbered result) }
{
    let (target, next) = target(s)?;
    let (value, next) = group(s, next, 3)?;
    let (priority, next) = optional_number(s, next, 4, 1, 16)?;
    last(
        s,
        next,
        Service::WriteProperty(WriteRequest {
            target,
            value,
            ranked: priority.is_some(),
            priority: priority.unwrap_or(0) as u8,
        }),
    )
}
