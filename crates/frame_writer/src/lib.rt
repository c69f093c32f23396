// Frames written whole into a lent area: preamble, header with its check, data with theirs.
#![tactic(auto)]

ghost use Rattle.std.specs.Prelude.{◌≡◌, ◌++◌, ◌+◌, ◌≤◌, length};
ghost use Rattle.octets.specs.Splice.{splice};
ghost use Rattle.octets.specs.Refusal.{numbered};
ghost use Rattle.sums.specs.Sums.{data_check};
ghost use Rattle.frames.specs.Layout.{data_part, frame_octets};
ghost use Rattle.frame_writer.specs.Front.{front_of};
ghost use Rattle.frame_writer.specs.Calls.{Writes};

use octets::Refusal;

// How many octets the frame takes: without data it has no data check.
fn size_of(payload: &[u8]) -> usize
    requires { length payload.now ≤ 501 }
    ensures { result ≡ 8 + length (data_part payload.now) }
{
    if payload.is_empty() {
        return 8;
    }
    payload.len() + 10
}

// What stands before the data, at the front: preamble, header, header check.
fn put_front(kind: u8, destination: u8, source: u8, n: u16, out: &mut [u8])
    requires { (n ≤ 501) × (8 ≤ length out.old) }
    ensures { out.new ≡ splice out.old 0 (front_of kind destination source n) }
{
    let [high, low] = n.to_be_bytes();
    let check = sums::header_check(&[kind, destination, source, high, low]);
    let front = [0x55, 0xFF, kind, destination, source, high, low, check];
    octets::copy(&front, out, 0);
}

// The data behind the header check, and their own check, low octet first.
fn put_data(payload: &[u8], out: &mut [u8])
    requires { 10 + length payload.now ≤ length out.old }
    ensures { out.new ≡ splice out.old 8 (payload.now ++ data_check payload.now) }
{
    octets::copy(payload, out, 8);
    let check = sums::data_check(payload).to_le_bytes();
    octets::copy(&check, out, 8 + payload.len());
}

// The whole frame at the front of an area that holds it.
fn put_frame(kind: u8, destination: u8, source: u8, payload: &[u8], out: &mut [u8])
    requires { (length payload.now ≤ 501) × (8 + length (data_part payload.now) ≤ length out.old) }
    ensures { out.new ≡ splice out.old 0 (frame_octets kind destination source payload.now) }
{
    put_front(kind, destination, source, payload.len() as u16, out);
    if !payload.is_empty() {
        put_data(payload, out);
    }
}

// A frame of this type, destination and source around these data, at the area's front: the octets written, or 64 for more than 501 data octets, or 61.
pub fn write(
    kind: u8,
    destination: u8,
    source: u8,
    payload: &[u8],
    out: &mut [u8],
) -> Result<usize, Refusal>
    ensures { Writes kind destination source payload.now out.old (numbered result) out.new }
{
    if 501 < payload.len() {
        return Err(Refusal::OutOfRange);
    }
    let size = size_of(payload);
    if out.len() < size {
        return Err(Refusal::TooSmall);
    }
    put_frame(kind, destination, source, payload, out);
    Ok(size)
}
