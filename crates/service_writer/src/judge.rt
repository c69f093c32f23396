// What reading a value in its group gives, worked out where the value stands: only its last few octets are laid beside those behind it.
ghost use Rattle.std.specs.Prelude.{◌≡◌, [], ◌∷◌, ◌++◌, length, ℕ, ◌+◌, ◌≤◌, ◌<◌, Ok};
ghost use Rattle.octets.specs.Refusal.{numbered, fault_of};
ghost use Rattle.tags.specs.Types.{longest};
ghost use Rattle.tags.specs.Head.{seen_as, tag_of};
ghost use Rattle.tags.specs.Head.Tag.{Item, Opening, Closing};
ghost use Rattle.items.specs.Records.{rec};
ghost use Rattle.items.specs.Reading.{walk};
ghost use Rattle.services.specs.Parts.{number_rule};
ghost use Rattle.service_writer.specs.Judging.{rank_of, phase_after, is_early, out_fault, reading, cut_of, cut_length, Ready, Halted, Small, FitsOne, TagFits, Stepped, Ran};

use octets::Refusal;
use tags::Tag;

// Where the layout stands: in group 3; behind it, where a priority may come; or where no item may come any more.
#[derive(Clone, Copy)]
pub enum Phase {
    Inside,
    Behind,
    Done,
}

// How far a reading went: its place, the items that may still begin, the numbers of the open groups and how many there are,
// and the layout, or what it refuses with: a tag's refusal that comes later goes before that.
#[derive(Clone, Copy)]
pub struct Reached {
    pub at: usize,
    pub left: usize,
    pub numbers: [u8; 16],
    pub depth: usize,
    pub phase: Result<Phase, Refusal>,
}

// An item whose contents are not all there.
#[derive(Clone, Copy)]
pub struct Cut {
    pub kind: u8,
    pub number: u8,
    pub place: usize,
    pub len: usize,
}

// A context item 4 as a priority: 1 to 16, which is one octet.
fn rank(s: &[u8], p: usize, l: usize) -> Result<Phase, Refusal>
    requires { FitsOne s.now p l }
    ensures { numbered result ≡ rank_of (number_rule s.now 1 16 (rec 1 4 0 0 p l)) }
{
    if l != 1 || s[p] < 1 || 16 < s[p] {
        return Err(Refusal::ParameterRange);
    }
    Ok(Phase::Done)
}

// The layout after one more item.
fn passed(
    s: &[u8],
    x: Result<Phase, Refusal>,
    request: bool,
    k: u8,
    n: u8,
    d: usize,
    p: usize,
    l: usize,
) -> Result<Phase, Refusal>
    requires { FitsOne s.now p l }
    ensures { numbered result ≡ phase_after s.now request (numbered x) (rec k n d 0 p l) }
{
    match x? {
        Phase::Inside if k == 3 && d == 0 => {
            if request {
                Ok(Phase::Behind)
            } else {
                Ok(Phase::Done)
            }
        }
        Phase::Inside => Ok(Phase::Inside),
        Phase::Behind if k == 1 && n == 4 => rank(s, p, l),
        Phase::Behind | Phase::Done => Err(Refusal::ItemAfterLast),
    }
}

// One item with contents, or a boolean, more.
fn item(s: &[u8], q: Reached, request: bool, k: u8, n: u8, p: usize, l: usize) -> Reached
    requires { Ready q × (p + l ≤ longest + longest) × FitsOne s.now p l }
    ensures { (v : ℕ) → Stepped s.now request q (Item k n v p l) (Ok result) }
{
    Reached {
        at: p + l,
        left: q.left - 1,
        phase: passed(s, q.phase, request, k, n, q.depth, p, l),
        ..q
    }
}

// A group more.
fn opened(s: &[u8], q: Reached, request: bool, n: u8, p: usize) -> Result<Reached, Refusal>
    requires { Ready q }
    ensures { Stepped s.now request q (Opening n p) result }
{
    if 16 <= q.depth {
        return Err(Refusal::TooDeep);
    }
    let mut numbers = q.numbers;
    numbers[q.depth] = n;
    Ok(Reached {
        at: p,
        left: q.left - 1,
        numbers,
        depth: q.depth + 1,
        phase: passed(s, q.phase, request, 2, n, q.depth, p, 0),
    })
}

// The innermost group ends.
fn closed(s: &[u8], q: Reached, request: bool, n: u8, p: usize) -> Result<Reached, Refusal>
    requires { Ready q }
    ensures { Stepped s.now request q (Closing n p) result }
{
    if q.depth == 0 || n != q.numbers[q.depth - 1] {
        return Err(Refusal::StrayClosing);
    }
    let depth = q.depth - 1;
    Ok(Reached {
        at: p,
        left: q.left - 1,
        depth,
        phase: passed(s, q.phase, request, 3, n, depth, p, 0),
        ..q
    })
}

// One tag more.
fn next(s: &[u8], q: Reached, request: bool, t: Tag) -> Result<Reached, Refusal>
    requires { Ready q × TagFits s.now (seen_as t) }
    ensures { Stepped s.now request q (seen_as t) result }
{
    match t {
        Tag::Item {
            class,
            number,
            place,
            len,
            ..
        } => Ok(item(s, q, request, class.kind(), number, place, len)),
        Tag::Opening { number, place } => opened(s, q, request, number, place),
        Tag::Closing { number, place } => closed(s, q, request, number, place),
    }
}

// Whether an octet of the item is missing.
fn early(t: Result<Tag, Refusal>) -> bool
    ensures { result ≡ is_early (tag_of t) }
{
    match t {
        Ok(_) => false,
        Err(x) => matches!(x, Refusal::ItemEndsEarly),
    }
}

// Tag after tag, to the octets' end or to an item that they do not end.
fn run(s: &[u8], from: Reached, request: bool) -> Result<Reached, Refusal>
    requires { Small s.now from }
    ensures { Ran s.now request from result }
{
    let mut q = from;
    // Stays: (d) what was read says where the next turn begins, and no index counts the turns.
    while q.at < s.len() {
        if q.left == 0 {
            return Err(Refusal::TooManyItems);
        }
        let t = tags::head(s, q.at);
        if early(t) {
            return Ok(q);
        }
        q = next(s, q, request, t?)?;
    }
    Ok(q)
}

// The octets to their end: 30 for an item that they do not end, 36 for a group, 40 for a group 3 that did not end.
fn finish(s: &[u8], from: Reached, request: bool) -> Result<(), Refusal>
    requires { Small s.now from }
    ensures { fault_of result ≡ reading s.now request from }
{
    let q = run(s, from, request)?;
    if q.at < s.len() {
        return Err(Refusal::ItemEndsEarly);
    }
    if 0 < q.depth {
        return Err(Refusal::GroupLeftOpen);
    }
    match q.phase? {
        Phase::Inside => Err(Refusal::ParameterMissing),
        _ => Ok(()),
    }
}

// The item at a place that has nine octets and is cut in its contents: these are five or more.
fn cut_item(s: &[u8], at: usize) -> Cut
    requires { at + 9 ≤ length s.now }
    ensures { result ≡ cut_of s.now at }
{
    let kind = s[at] % 16 / 8;
    let n = s[at] / 16;
    if n < 15 {
        return cut_length(s, at + 1, kind, n);
    }
    cut_length(s, at + 2, kind, s[at + 1])
}

// Its length, in one octet or in three.
fn cut_length(s: &[u8], p: usize, kind: u8, number: u8) -> Cut
    requires { p + 3 ≤ length s.now }
    ensures { result ≡ cut_length s.now p kind number }
{
    let e = s[p];
    if e < 254 {
        return Cut {
            kind,
            number,
            place: p + 1,
            len: usize::from(e),
        };
    }
    Cut {
        kind,
        number,
        place: p + 3,
        len: octets::pair(s[p + 1], s[p + 2]) as usize,
    }
}

// An item that the value does not end and that began nine octets before its end or more: contents reach into the octets behind.
fn beyond(s: &[u8], behind: &[u8], q: Reached, request: bool) -> Result<(), Refusal>
    requires { Halted s.now q × (q.at + 9 ≤ length s.now) × (length s.now + length behind.now ≤ longest) }
    ensures { fault_of result ≡ reading (s.now ++ behind.now) request q }
{
    let c = cut_item(s, q.at);
    let end = c.place + c.len;
    if s.len() + behind.len() < end {
        return Err(Refusal::ItemEndsEarly);
    }
    let x = item(s, q, request, c.kind, c.number, c.place, c.len);
    finish(
        behind,
        Reached {
            at: end - s.len(),
            ..x
        },
        request,
    )
}

// What is left of the value where its reading stopped, with the octets behind it.
fn rest(s: &[u8], behind: &[u8], q: Reached, request: bool) -> Result<(), Refusal>
    requires { Halted s.now q × (length behind.now ≤ 7) × (length s.now + length behind.now ≤ longest) }
    ensures { fault_of result ≡ reading (s.now ++ behind.now) request q }
{
    let n = s.len() - q.at;
    if 9 <= n {
        return beyond(s, behind, q, request);
    }
    let mut tail = [0u8; 16];
    octets::copy(&s[q.at..], &mut tail, 0);
    octets::copy(behind, &mut tail, n);
    finish(&tail[..n + behind.len()], Reached { at: 0, ..q }, request)
}

// The value's octets in group 3 and those behind it, where so many items may still begin.
pub fn judge(s: &[u8], behind: &[u8], request: bool, left: usize) -> Result<(), Refusal>
    requires { (length behind.now ≤ 7) × (length s.now + length behind.now ≤ longest) }
    ensures { fault_of result ≡ out_fault (s.now ++ behind.now) request (Ok Phase.Inside) (walk left (s.now ++ behind.now) 0 (3 ∷ [])) }
{
    let mut numbers = [0u8; 16];
    numbers[0] = 3;
    let from = Reached {
        at: 0,
        left,
        numbers,
        depth: 1,
        phase: Ok(Phase::Inside),
    };
    let q = run(s, from, request)?;
    rest(s, behind, q, request)
}
