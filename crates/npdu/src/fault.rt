// The refusal that a header to be written deserves.
ghost use Rattle.std.specs.Prelude.{◌≡◌};
ghost use Rattle.octets.specs.Refusal as Refusing;
ghost use Rattle.npdu.specs.Fault.{part_fault, fault_of};

use crate::addresses::{destination_of, source_of};
use crate::part::Limits;
use crate::{Address, Npdu};
use octets::Refusal;

// A part's: an absent part is not looked at.
#[tactic(auto, using(octets::specs::Rules::flags, octets::specs::Rules::tests), unfolding(crate::specs::Fault::part_fault, crate::specs::Fault::part_rules))]
pub fn judge_part(a: Address, limits: Limits) -> Result<(), Refusal>
    ensures { Refusing.fault_of result ≡ part_fault a.present a.network a.length limits.low limits.top }
{
    if !a.present {
        return Ok(());
    }
    if a.network == 0 || limits.top < a.network {
        return Err(Refusal::NetworkNumber);
    }
    if a.length < limits.low || 7 < a.length {
        return Err(Refusal::AddressLength);
    }
    Ok(())
}

// The header's: the first field in octet order that breaks a rule.
#[tactic(auto, using(octets::specs::Rules::tests), unfolding(crate::specs::Fault::fault_of, crate::specs::Fault::sooner))]
pub fn judge_head(h: Npdu) -> Result<(), Refusal>
    ensures { Refusing.fault_of result ≡ fault_of h }
{
    if 3 < h.priority {
        return Err(Refusal::NpduReserved);
    }
    judge_part(destination_of(h), Limits::DESTINATION)?;
    judge_part(source_of(h), Limits::SOURCE)
}
