// Frames written and messages cut.
ghost use Rattle.frames.specs.Layout.{frame_octets};
ghost use Rattle.frame_writer.specs.Fault.{fault_of};
ghost use Rattle.state.specs.Edition.{edition_of};
ghost use Rattle.hitchbarley.specs.Answers.{Writes};
ghost use Rattle.hitchbarley.specs.Writers.{way_at, Cuts};

use hitchbarley::writer_calls;

// A frame of this type, destination and source around these data: 0, 64 or 61; and how many octets were written.
#[unsafe(no_mangle)]
pub extern "C" fn hb_frame_write(
    kind: u8,
    destination: u8,
    source: u8,
    payload: &[u8],
    out: &mut [u8],
    wrote: &mut usize,
) -> u8
    ensures { Writes (fault_of payload.now) (frame_octets kind destination source payload.now) out.old result wrote.new out.new }
{
    writer_calls::hb_frame_write(kind, destination, source, payload, out, wrote)
}

// The NPDUs of a message that is cut, end to end: 0, 60, 39, 64, 12, 21, 22, 23, 63 or 61; how many octets were written, and of how many segments.
// The header is an APDU record of 13 with the window in its place, in the edition that `later` says; SEG, MOR and number in it are not looked at.
#[unsafe(no_mangle)]
pub extern "C" fn hb_cut(
    fields: &[u8],
    later: u8,
    reply: u8,
    priority: u8,
    each: usize,
    params: &[u8],
    out: &mut [u8],
    wrote: &mut usize,
    segments: &mut usize,
) -> u8
    ensures { Cuts (edition_of later) fields.now (way_at fields.now reply priority each) params.now out.old result wrote.new segments.new out.new }
{
    writer_calls::hb_cut(
        fields, later, reply, priority, each, params, out, wrote, segments,
    )
}
