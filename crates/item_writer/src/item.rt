// One item at a place: its tag octet, the rest of its number, the rest of its length, its contents.
ghost use Rattle.std.specs.Prelude.{◌≡◌, [], ◌∷◌, true, ◌+◌, ◌/◌, ◌%◌, ◌≤◌, length, take, drop};
ghost use Rattle.octets.specs.Splice.{splice, Put};
ghost use Rattle.tags.specs.Layout.{high_bits, low_bits, number_octets, length_octets};
ghost use Rattle.item_judge.specs.Kinds.{rec_of, inside_test};
ghost use Rattle.item_judge.specs.OneLayout.{low_part, tag_octet, layout};
ghost use Rattle.item_writer.specs.Writing.{Ready};

use item_judge::Record;

// The number in the tag octet.
#[tactic(auto, using(octets::specs::Rules::tests), unfolding(tags::specs::Layout::high_bits))]
fn high_bits(n: u8) -> u8
    ensures { (result ≡ high_bits n) × (result ≤ 15) }
{
    if n < 15 { n } else { 15 }
}

// The length in the tag octet.
#[tactic(auto, using(octets::specs::Rules::tests), unfolding(tags::specs::Layout::low_bits))]
fn low_bits(len: usize) -> u8
    ensures { (result ≡ low_bits len) × (result ≤ 5) }
{
    if len < 5 { len as u8 } else { 5 }
}

// The class and the length bits of the tag octet; a boolean's value is in these.
#[tactic(auto, using(octets::specs::Rules::tests), unfolding(item_judge::specs::OneLayout::low_part))]
fn low_part(r: Record) -> u8
    requires { r.value ≤ 1 }
    ensures { (result ≡ low_part (rec_of r)) × (result ≤ 15) }
{
    match r.kind {
        0 => r.value + low_bits(r.len),
        1 => 8 + low_bits(r.len),
        2 => 14,
        _ => 15,
    }
}

// The tag octet.
#[tactic(auto, unfolding(item_judge::specs::OneLayout::tag_octet))]
fn tag(r: Record) -> u8
    requires { r.value ≤ 1 }
    ensures { result ≡ tag_octet (rec_of r) }
{
    high_bits(r.number) * 16 + low_part(r)
}

// A number that the tag octet has no room for.
fn put_number(out: &mut [u8], at: usize, n: u8) -> usize
    requires { at + length (number_octets n) ≤ length out.old }
    ensures { Put out.old at (number_octets n) result out.new }
{
    if n < 15 {
        return at;
    }
    octets::put(out, at, n);
    at + 1
}

// A length that the tag octet has no room for.
fn put_length(out: &mut [u8], at: usize, len: usize) -> usize
    requires { (len ≤ 16384) × (at + length (length_octets len) ≤ length out.old) }
    ensures { Put out.old at (length_octets len) result out.new }
{
    match len {
        0..=4 => at,
        5..=253 => {
            octets::put(out, at, len as u8);
            at + 1
        }
        _ => {
            let [high, low] = (len as u16).to_be_bytes();
            octets::copy(&[254, high, low], out, at);
            at + 3
        }
    }
}

// The contents, as they lie in the source; where there are none the place is not looked at.
fn put_contents(out: &mut [u8], at: usize, source: &[u8], place: usize, len: usize)
    requires { (inside_test (length source.now) place len ≡ true) × (at + len ≤ length out.old) }
    ensures { out.new ≡ splice out.old at (take len (drop place source.now)) }
{
    if len == 0 {
        return;
    }
    octets::copy(&source[place..place + len], out, at);
}

// The item of a good record, and the place after it.
pub fn put_item(r: Record, source: &[u8], out: &mut [u8], at: usize) -> usize
    requires { Ready source.now (rec_of r) at out.old }
    ensures { Put out.old at (layout source.now (rec_of r)) result out.new }
{
    octets::put(out, at, tag(r));
    let a = put_number(out, at + 1, r.number);
    let b = put_length(out, a, r.len);
    put_contents(out, b, source, r.place, r.len);
    b + r.len
}
