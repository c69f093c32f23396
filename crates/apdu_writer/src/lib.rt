// APDU headers (clause 20.1), written into a lent area. The caller lays the parameters after the header.
#![tactic(auto)]

ghost use Rattle.std.specs.Prelude.{◌≡◌};
ghost use Rattle.octets.specs.Refusal as refusal;
ghost use Rattle.octets.specs.Refusal.{numbered};
ghost use Rattle.apdu.specs.Fault.{fault_of};
ghost use Rattle.apdu_writer.specs.Calls.{Writes};

use apdu::{Edition, Pdu};
use octets::Refusal;

mod faults; // faults.rt: the first field that breaks a rule
mod layouts; // layouts.rt: the octets of each kind

// Whether a header may be written, whatever the area; else the first field that breaks a rule.
pub fn judge(edition: Edition, p: Pdu) -> Result<(), Refusal>
    ensures { refusal.fault_of result ≡ fault_of edition p }
{
    faults::judge(edition, p)
}

// The header of a PDU at the area's front: the octets written, or why it is refused.
pub fn write(edition: Edition, p: Pdu, out: &mut [u8]) -> Result<usize, Refusal>
    ensures { Writes edition p out.old (numbered result) out.new }
{
    judge(edition, p)?;
    let n = apdu::fields::params_at(p);
    if out.len() < n {
        return Err(Refusal::TooSmall);
    }
    layouts::put_header(p, out);
    Ok(n)
}
