// The six services, written into a lent area.
#![tactic(auto)]

mod judge;
mod layouts;
mod work;

ghost use Rattle.std.specs.Prelude.{◌≡◌, [], ◌++◌, length, ◌+◌, ◌≤◌, is_some};
ghost use Rattle.std.specs.Option.{unwrap_or};
ghost use Rattle.octets.specs.Laid.{Laid};
ghost use Rattle.octets.specs.Refusal.{numbered};
ghost use Rattle.tags.specs.Types.{longest};
ghost use Rattle.service_writer.specs.Layout.{room_of, ranked, octets_of};
ghost use Rattle.service_writer.specs.Fault.{wide_target, read_fault, ranked_fault, fault_of};

use octets::Refusal;
use services::{Fault, IAm, Service, Target, WhoIs};

// The service with the value's octets, from the area's first octet. A service without a value does not look at them, and none looks at the span inside it.
pub fn write(v: Service, value: &[u8], out: &mut [u8]) -> Result<usize, Refusal>
    ensures { Laid (fault_of v value.now) (octets_of v value.now) out.old (numbered result) out.new }
{
    match v {
        Service::ReadProperty(t) => write_target(t, out),
        Service::ReadPropertyAck(a) => write_ranked(false, a.target, value, None, out),
        Service::WriteProperty(w) => {
            let priority = w.ranked.then_some(w.priority);
            write_ranked(true, w.target, value, priority, out)
        }
        Service::WhoIs(w) => write_limits(w, out),
        Service::IAm(i) => write_device(i, out),
        Service::Error(f) => write_error(f, out),
    }
}

// Whether the object's type or instance is too wide for its layout.
#[tactic(auto, using(octets::specs::Rules::tests), unfolding(crate::specs::Fault::wide_target))]
fn wide(t: Target) -> bool
    ensures { result ≡ wide_target t }
{
    1023 < t.object || 4194303 < t.instance
}

// Octets that were laid elsewhere, where reading accepts them; else the number that it gives. 61 comes last.
fn settle(kind: u8, choice: u8, o: &[u8], out: &mut [u8]) -> Result<usize, Refusal>
    ensures { Laid (read_fault kind choice o.now) o.now out.old (numbered result) out.new }
{
    services::read(kind, choice, o)?;
    if out.len() < o.len() {
        return Err(Refusal::TooSmall);
    }
    octets::copy(o, out, 0);
    Ok(o.len())
}

fn write_target(t: Target, out: &mut [u8]) -> Result<usize, Refusal>
    ensures { Laid (fault_of (Service.ReadProperty t) []) (octets_of (Service.ReadProperty t) []) out.old (numbered result) out.new }
{
    if wide(t) {
        return Err(Refusal::ParameterRange);
    }
    settle(0, 12, layouts::target(t).laid(), out)
}

fn write_limits(w: WhoIs, out: &mut [u8]) -> Result<usize, Refusal>
    ensures { Laid (fault_of (Service.WhoIs w) []) (octets_of (Service.WhoIs w) []) out.old (numbered result) out.new }
{
    settle(1, 8, layouts::limits(w).laid(), out)
}

fn write_device(i: IAm, out: &mut [u8]) -> Result<usize, Refusal>
    ensures { Laid (fault_of (Service.IAm i) []) (octets_of (Service.IAm i) []) out.old (numbered result) out.new }
{
    if 4194303 < i.instance {
        return Err(Refusal::ParameterRange);
    }
    settle(1, 0, layouts::device(i).laid(), out)
}

fn write_error(f: Fault, out: &mut [u8]) -> Result<usize, Refusal>
    ensures { Laid (fault_of (Service.Error f) []) (octets_of (Service.Error f) []) out.old (numbered result) out.new }
{
    settle(5, 12, layouts::error(f).laid(), out)
}

// The items that may begin behind a target and the opening of group 3.
#[tactic(auto, using(octets::specs::Rules::tests), unfolding(crate::specs::Layout::room_of))]
fn room(t: Target) -> usize
    ensures { result ≡ room_of t }
{
    if t.indexed { 2044 } else { 2045 }
}

// Three runs of octets one after the other.
fn lay(front: &[u8], value: &[u8], behind: &[u8], out: &mut [u8]) -> Result<usize, Refusal>
    requires { length front.now + length value.now + length behind.now ≤ longest }
    ensures { Laid 0 (front.now ++ (value.now ++ behind.now)) out.old (numbered result) out.new }
{
    let a = front.len() + value.len();
    let n = a + behind.len();
    if out.len() < n {
        return Err(Refusal::TooSmall);
    }
    octets::copy(front, out, 0);
    octets::copy(value, out, front.len());
    octets::copy(behind, out, a);
    Ok(n)
}

// A target, a value and an optional priority, which a request may have: what reading them gives is judged where the value stands.
fn write_ranked(
    request: bool,
    t: Target,
    value: &[u8],
    priority: Option<u8>,
    out: &mut [u8],
) -> Result<usize, Refusal>
    ensures { Laid (ranked_fault request t value.now (is_some priority) (unwrap_or priority 0)) (ranked t value.now (is_some priority) (unwrap_or priority 0)) out.old (numbered result) out.new }
{
    if wide(t) {
        return Err(Refusal::ParameterRange);
    }
    if 16384 < value.len() {
        return Err(Refusal::TooManyOctets);
    }
    let before = layouts::front(t);
    let after = layouts::behind(priority);
    let front = before.laid();
    let behind = after.laid();
    if 16384 < front.len() + value.len() + behind.len() {
        return Err(Refusal::TooManyOctets);
    }
    judge::judge(value, behind, request, room(t))?;
    lay(front, value, behind, out)
}
