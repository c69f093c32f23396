// The contents of an application item: how long they may be, and their rule by type.
ghost use Rattle.std.specs.Prelude.{◌≡◌, ◌≤◌, ◌<◌, length, leb};
ghost use Rattle.octets.specs.Choice.{pick, both};
ghost use Rattle.octets.specs.Refusal.{fault_of};
ghost use Rattle.tags.specs.Types.{least, most, right_length};
ghost use Rattle.tags.specs.Reading.{first_content, whole_at, sign_bad, signed_at, contents_at};

use octets::Refusal;

// How long the contents of type n may be, from the one to the other: of null and of a boolean there are none.
#[tactic(auto, unfolding(crate::specs::Types::least, crate::specs::Types::most))]
fn lengths(n: u8) -> (usize, usize)
    requires { n ≤ 12 }
    ensures { (result.0 ≡ least n) × (result.1 ≡ most n) }
{
    match n {
        0 | 1 => (0, 0),
        2 | 3 | 9 => (1, 4),
        5 => (8, 8),
        6 => (0, 16384),
        7 | 8 => (1, 16384),
        _ => (4, 4),
    }
}

// The fewest contents octets of type n.
pub fn low(n: u8) -> usize
    requires { n ≤ 12 }
    ensures { result ≡ least n }
{
    lengths(n).0
}

// The most contents octets of type n.
pub fn high(n: u8) -> usize
    requires { n ≤ 12 }
    ensures { result ≡ most n }
{
    lengths(n).1
}

// Whether contents of type n may be as long as that.
#[tactic(auto, using(octets::specs::Rules::tests), unfolding(crate::specs::Types::right_length))]
pub fn fits(n: u8, len: usize) -> bool
    requires { n ≤ 12 }
    ensures { result ≡ right_length n len }
{
    let (low, high) = lengths(n);
    low <= len && len <= high
}

// What len contents octets at p break for type n, their length first: 33, 30 or 34.
// 9 has the rule of 2; 10, 11 and 12 are as 4, four octets and no rule.
// Stays: (b) each type names its lengths, for speed: by `fits` alone, which was tried, `head` takes a quarter more instructions for an unsigned number.
pub fn by_type(s: &[u8], p: usize, n: u8, len: usize) -> Result<(), Refusal>
    requires { (n ≤ 12) × (n ≡ 1 → ⊥) }
    ensures { fault_of result ≡ pick (right_length n len) (contents_at s.now p n len) 33 }
{
    match n {
        0 => of_length(s, p, n, len, 0, 0),
        2 | 9 => of_length(s, p, 2, len, 1, 4),
        3 => of_length(s, p, n, len, 1, 4),
        5 => of_length(s, p, n, len, 8, 8),
        6 => of_length(s, p, n, len, 0, 16384),
        7 => of_length(s, p, n, len, 1, 16384),
        8 => of_length(s, p, n, len, 1, 16384),
        _ => of_length(s, p, 4, len, 4, 4),
    }
}

// The same for a type whose contents are at least the one length and at most the other.
#[tactic(auto, using(octets::specs::Rules::tests))]
fn of_length(
    s: &[u8],
    p: usize,
    n: u8,
    len: usize,
    least: usize,
    most: usize,
) -> Result<(), Refusal>
    ensures { fault_of result ≡ pick (both (leb least len) (leb len most)) (contents_at s.now p n len) 33 }
{
    if least <= len && len <= most {
        contents(s, p, n, len)
    } else {
        Err(Refusal::ContentsLength)
    }
}

// What len contents octets at p break for type n, judged left to right: 30 or 34.
#[tactic(auto, using(octets::specs::Rules::tests), unfolding(crate::specs::Reading::contents_at))]
pub fn contents(s: &[u8], p: usize, n: u8, len: usize) -> Result<(), Refusal>
    ensures { fault_of result ≡ contents_at s.now p n len }
{
    if len == 0 {
        return Ok(());
    }
    if s.len() <= p {
        return Err(Refusal::ItemEndsEarly);
    }
    first_content(n, len, s[p])?;
    if n == 3 {
        return signed(s, p, len);
    }
    whole(s, p, len)
}

// What the first contents octet a breaks: 34.
#[tactic(auto, using(octets::specs::Rules::tests), unfolding(crate::specs::Reading::first_content))]
fn first_content(n: u8, len: usize, a: u8) -> Result<(), Refusal>
    ensures { fault_of result ≡ first_content n len a }
{
    match n {
        7 if 5 < a => Err(Refusal::ContentsRule),
        8 if 7 < a || len == 1 && 0 < a => Err(Refusal::ContentsRule),
        2 | 9 if a == 0 && 1 < len => Err(Refusal::ContentsRule),
        _ => Ok(()),
    }
}

// 30 where the contents are not all there.
#[tactic(auto, using(octets::specs::Rules::tests), unfolding(crate::specs::Reading::whole_at))]
fn whole(s: &[u8], p: usize, len: usize) -> Result<(), Refusal>
    requires { p ≤ length s.now }
    ensures { fault_of result ≡ whole_at s.now p len }
{
    if s.len() - p < len {
        return Err(Refusal::ItemEndsEarly);
    }
    Ok(())
}

// Whether these two first octets begin a longer two's complement form than needed.
#[tactic(auto, using(octets::specs::Rules::tests), unfolding(crate::specs::Reading::sign_bad))]
fn sign_bad(a: u8, b: u8) -> bool
    ensures { result ≡ sign_bad a b }
{
    a == 0 && b < 128 || a == 255 && 128 <= b
}

// What the contents of a signed number break.
#[tactic(auto, using(octets::specs::Rules::tests), unfolding(crate::specs::Reading::signed_at))]
fn signed(s: &[u8], p: usize, len: usize) -> Result<(), Refusal>
    requires { p < length s.now }
    ensures { fault_of result ≡ signed_at s.now p len }
{
    if len < 2 {
        return whole(s, p, len);
    }
    if s.len() <= p + 1 {
        return Err(Refusal::ItemEndsEarly);
    }
    if sign_bad(s[p], s[p + 1]) {
        return Err(Refusal::ContentsRule);
    }
    whole(s, p, len)
}
