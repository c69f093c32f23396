// The octets of each layout, and those before and behind a value.
ghost use Rattle.std.specs.Prelude.{◌≡◌, false, [], ◌∷◌, length, ◌+◌, ◌≤◌, is_some};
ghost use Rattle.std.specs.Option.{unwrap_or};
ghost use Rattle.octets.specs.Numbers.{width_of, digits};
ghost use Rattle.items.specs.Grammar.{encode_all};
ghost use Rattle.services.specs.Reading.{last_instance};
ghost use Rattle.services.specs.Layout.{pointed, encode};
ghost use Rattle.services.specs.Shows.{pointed_of, message_of};
ghost use Rattle.service_writer.specs.Layout.{number_item, front_of, behind_of, laid, Holds, Adds};
ghost use Rattle.service_writer.specs.Fault.{wide_target};

use crate::work::Work;
use services::{Fault, IAm, Service, Target, WhoIs};

// The octets that a number takes.
#[tactic(auto, using(octets::specs::Rules::tests), unfolding(octets::specs::Numbers::width_of))]
fn width(v: u32) -> usize
    ensures { result ≡ width_of v }
{
    match v {
        ..=0xff => 1,
        ..=0xffff => 2,
        ..=0xff_ffff => 3,
        _ => 4,
    }
}

impl Work {
    fn new() -> Work
        ensures { Holds result [] }
    {
        Work {
            octets: [0; 24],
            len: 0,
        }
    }

    // What is laid.
    pub fn laid(&self) -> &[u8]
        ensures { result.now ≡ laid self.now }
    {
        &self.octets[..self.len]
    }

    fn add(&mut self, o: &[u8])
        requires { self.old.len + length o.now ≤ 24 }
        ensures { Adds self.old o.now self.new }
    {
        octets::copy(o, &mut self.octets, self.len);
        self.len += o.len();
    }

    // A number's item: `head` is its tag octet without the length.
    fn item(&mut self, head: u8, v: u32)
        requires { (self.old.len + 5 ≤ 24) × (head ≤ 240) }
        ensures { Adds self.old (number_item head v) self.new }
    {
        let w = width(v);
        self.add(&[head + w as u8]);
        self.add(&v.to_be_bytes()[4 - w..]);
    }

    // An item of four octets: its tag octet, and a number.
    fn object(&mut self, tag: u8, v: u32)
        requires { self.old.len + 5 ≤ 24 }
        ensures { Adds self.old (tag ∷ digits 4 v) self.new }
    {
        self.add(&[tag]);
        self.add(&v.to_be_bytes());
    }
}

// Context 0 object, 1 property, optional 2 index.
pub fn target(t: Target) -> Work
    requires { wide_target t ≡ false }
    ensures { Holds result (encode_all (pointed (pointed_of t))) }
{
    let mut work = Work::new();
    work.object(12, t.object as u32 * 4194304 + t.instance);
    work.item(24, t.property);
    if t.indexed {
        work.item(40, t.index);
    }
    work
}

// None, or both limits.
pub fn limits(w: WhoIs) -> Work
    ensures { Holds result (encode (message_of (Service.WhoIs w) [])) }
{
    let mut work = Work::new();
    if w.limited {
        work.item(8, w.low);
        work.item(24, w.high);
    }
    work
}

// Application object of type 8, unsigned, enumerated, unsigned.
pub fn device(i: IAm) -> Work
    requires { i.instance ≤ last_instance }
    ensures { Holds result (encode (message_of (Service.IAm i) [])) }
{
    let mut work = Work::new();
    work.object(196, 33554432 + i.instance);
    work.item(32, i.longest);
    work.item(144, i.segmentation as u32);
    work.item(32, i.vendor as u32);
    work
}

// Two application enumerated.
pub fn error(f: Fault) -> Work
    ensures { Holds result (encode (message_of (Service.Error f) [])) }
{
    let mut work = Work::new();
    work.item(144, f.class);
    work.item(144, f.code);
    work
}

// What stands before a value: its target, and the opening of group 3.
pub fn front(t: Target) -> Work
    requires { wide_target t ≡ false }
    ensures { Holds result (front_of t) }
{
    let mut work = target(t);
    work.add(&[62]);
    work
}

// What stands behind it: the closing and, where it is there, a priority.
pub fn behind(priority: Option<u8>) -> Work
    ensures { Holds result (behind_of (is_some priority) (unwrap_or priority 0)) }
{
    let mut work = Work::new();
    work.add(&[63]);
    if let Some(p) = priority {
        work.item(72, p as u32);
    }
    work
}
