// The 12-octet record of an item, put into a lent area.
ghost use Rattle.std.specs.Prelude.{◌≡◌};
ghost use Rattle.tags.specs.Head.{seen_as};
ghost use Rattle.items.specs.Records.{rec_of, rec_at};
ghost use Rattle.items.specs.Cycle.{put_record};

use tags::Tag;

// A record's fields.
#[derive(Clone, Copy)]
pub struct Record {
    pub kind: u8,
    pub number: u8,
    pub depth: u8,
    pub value: u8,
    pub place: usize,
    pub len: usize,
}

// The record of a tag, in so many groups.
fn of_tag(tag: Tag, depth: u8) -> Record
    ensures { rec_of result ≡ rec_at depth (seen_as tag) }
{
    match tag {
        Tag::Item {
            class,
            number,
            value,
            place,
            len,
        } => Record {
            kind: class.kind(),
            number,
            depth,
            value,
            place,
            len,
        },
        Tag::Opening { number, place } => Record {
            kind: 2,
            number,
            depth,
            value: 0,
            place,
            len: 0,
        },
        Tag::Closing { number, place } => Record {
            kind: 3,
            number,
            depth,
            value: 0,
            place,
            len: 0,
        },
    }
}

// The i-th record, of a tag in so many groups, where it fits.
pub fn put(out: &mut [u8], i: usize, tag: Tag, depth: u8)
    ensures { out.new ≡ put_record out.old i (rec_at depth (seen_as tag)) }
{
    if out.len() / 12 <= i {
        return;
    }
    let at = i * 12;
    let r = of_tag(tag, depth);
    octets::copy(&[r.kind, r.number, r.depth, r.value], out, at);
    // Four octets each: all that a place or a length within 16,384 octets has.
    octets::put_four(out, at + 4, (r.place % 4294967296) as u32);
    octets::put_four(out, at + 8, (r.len % 4294967296) as u32);
}
