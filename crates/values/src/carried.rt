// What a service carries: the value of a property, read or to be written.
use services::{ReadAck, Service, Span, Target, WriteRequest};

#[derive(Clone, Copy)]
pub struct Held {
    pub target: Target,
    pub value: Span,
    pub priority: Option<u8>,
}

pub fn of(v: Service) -> Option<Held> {
    match v {
        Service::ReadPropertyAck(ReadAck { target, value }) => Some(Held {
            target,
            value,
            priority: None,
        }),
        Service::WriteProperty(
            WriteRequest {
                target,
                value,
                ranked,
                priority,
            },
        ) => Some(Held {
            target,
            value,
            priority: ranked.then_some(priority),
        }),
        Service::ReadProperty(_) | Service::WhoIs(_) | Service::IAm(_) | Service::Error(_) => None,
    }
}
