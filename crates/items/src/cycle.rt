// Items one after the other; where a group opens, the same function reads it to its closing number. The octets left fall.
ghost use Rattle.items.specs.Answers.{passed_of};
ghost use Rattle.items.specs.Cycle.{ReadReady, ReadSays};

use crate::records::put;
use octets::Refusal;
use tags::Tag;

// 38: "a 2,049th item begins".
pub const MOST: usize = 2048;

// How reading ends: the next place, and the items so far.
#[derive(Clone, Copy)]
pub struct Passed {
    pub at: usize,
    pub items: usize,
}

// The items from `at`, after `items` others, with their records: to the closing number of the group, the innermost of `depth` that are open,
// or, where none is open, all to the end.
pub fn read(
    s: &[u8],
    at: usize,
    group: Option<u8>,
    depth: u8,
    items: usize,
    out: &mut [u8],
) -> Result<Passed, Refusal>
    requires { ReadReady group s.now at depth items }
    ensures { ReadSays group s.now at depth items out.old out.new (passed_of result) }
{
    let mut p = at;
    let mut k = items;
    // Stays: (d) what was read says where the next turn begins, and no index counts the turns.
    while p < s.len() {
        if MOST <= k {
            return Err(Refusal::TooManyItems);
        }
        let tag = tags::head(s, p)?;
        match tag {
            Tag::Item { place, len, .. } => {
                put(out, k, tag, depth);
                p = place + len;
                k += 1;
            }
            Tag::Opening { number, place } => {
                if 16 <= depth {
                    return Err(Refusal::TooDeep);
                }
                put(out, k, tag, depth);
                let end = read(s, place, Some(number), depth + 1, k + 1, out)?;
                p = end.at;
                k = end.items;
            }
            Tag::Closing { number, place } => {
                if group != Some(number) {
                    return Err(Refusal::StrayClosing);
                }
                put(out, k, tag, depth - 1);
                return Ok(Passed {
                    at: place,
                    items: k + 1,
                });
            }
        }
    }
    if group.is_some() {
        return Err(Refusal::GroupLeftOpen);
    }
    Ok(Passed { at: p, items: k })
}
