// Whether a record may stand where these groups are open, kind by kind.
ghost use Rattle.std.specs.Prelude.{◌≡◌};
ghost use Rattle.item_judge.specs.Kinds.{rec_of, boolean_rule, application_rule, context_rule, bracket_rule, closing_rule, kind_rule};

use crate::nesting::Open;
use crate::{Record, contents};

// A boolean, with so many groups open: its value is in the record, and it has no contents.
#[tactic(auto, using(octets::specs::Rules::tests), unfolding(crate::specs::Kinds::boolean_rule))]
fn boolean(r: Record, depth: usize) -> bool
    ensures { result ≡ boolean_rule depth (rec_of r) }
{
    r.depth == depth && r.value <= 1 && r.len == 0
}

// Any other application item.
#[tactic(auto, using(octets::specs::Rules::tests), unfolding(crate::specs::Kinds::application_rule))]
fn application(r: Record, source: &[u8], depth: usize) -> bool
    ensures { result ≡ application_rule source.now depth (rec_of r) }
{
    r.depth == depth
        && r.value == 0
        && r.number <= 12
        && contents::of_type(source, r.number, r.place, r.len)
}

// A context item.
#[tactic(auto, using(octets::specs::Rules::tests), unfolding(crate::specs::Kinds::context_rule))]
fn context(r: Record, source: &[u8], depth: usize) -> bool
    ensures { result ≡ context_rule source.now depth (rec_of r) }
{
    r.depth == depth
        && r.value == 0
        && r.number <= 254
        && r.len <= 16384
        && contents::inside(source, r.place, r.len)
}

// An opening or a closing, with so many groups open outside it.
#[tactic(auto, using(octets::specs::Rules::tests), unfolding(crate::specs::Kinds::bracket_rule))]
fn bracket(r: Record, depth: usize) -> bool
    ensures { result ≡ bracket_rule depth (rec_of r) }
{
    r.depth == depth && r.value == 0 && r.number <= 254 && r.len == 0
}

// A closing: of the innermost group's number.
fn closing(r: Record, groups: &Open) -> bool
    ensures { result ≡ closing_rule groups.now (rec_of r) }
{
    let Some(n) = groups.innermost() else {
        return false;
    };
    r.number == n && bracket(r, groups.depth() - 1)
}

// A record, with these groups open.
#[tactic(auto, using(octets::specs::Rules::tests), unfolding(crate::specs::Kinds::kind_rule))]
pub fn good(r: Record, source: &[u8], groups: &Open) -> bool
    ensures { result ≡ kind_rule source.now groups.now (rec_of r) }
{
    let depth = groups.depth();
    match r.kind {
        0 if r.number == 1 => boolean(r, depth),
        0 => application(r, source, depth),
        1 => context(r, source, depth),
        2 => depth < 16 && bracket(r, depth),
        3 => closing(r, groups),
        _ => false,
    }
}
