// Traffic written: a frame, and a message cut into segments.
ghost use Rattle.std.specs.Prelude.{◌≡◌, length};
ghost use Rattle.frames.specs.Layout.{frame_octets};
ghost use Rattle.frame_writer.specs.Fault.{fault_of};
ghost use Rattle.state.specs.Edition.{edition_of};
ghost use Rattle.hitchbarley.specs.Answers.{Writes};
ghost use Rattle.hitchbarley.specs.Writers.{message_at, segmented, way_at, Cuts};

use crate::answers;
use cutter::{Message, Way, WholeAck, WholeRequest};
use octets::Refusal;

// A frame of this type, destination and source around these data: 0, 64 or 61; and how many octets were written.
pub fn hb_frame_write(
    kind: u8,
    destination: u8,
    source: u8,
    payload: &[u8],
    out: &mut [u8],
    wrote: &mut usize,
) -> u8
    ensures { Writes (fault_of payload.now) (frame_octets kind destination source payload.now) out.old result wrote.new out.new }
{
    let w = frame_writer::write(kind, destination, source, payload, out);
    answers::written(w, wrote)
}

// Whether a PDU of this type has segments.
#[tactic(auto, unfolding(crate::specs::Writers::segmented))]
fn segmented(kind: u8) -> bool
    ensures { result ≡ segmented kind }
{
    kind == 0 || kind == 3
}

// The message that a record of type 0 or 3 is.
#[tactic(auto, unfolding(crate::specs::Writers::message_at))]
fn message(fields: &[u8]) -> Message
    requires { length fields.now ≡ 13 }
    ensures { result ≡ message_at fields.now }
{
    if fields[0] == 0 {
        return Message::Request(WholeRequest {
            sa: 0 < fields[3],
            size: fields[6],
            invoke: fields[7],
            choice: fields[10],
            accepts: fields[12],
        });
    }
    Message::ComplexAck(WholeAck {
        invoke: fields[7],
        choice: fields[10],
    })
}

// The NPDUs of a message that is cut, end to end: 0, 60, 39, 64, 12, 21, 22, 23, 63 or 61; how many octets were written, and of how many segments.
// The header is an APDU record of 13 with the window in its place, in the edition that `later` says; SEG, MOR and number in it are not looked at.
pub fn hb_cut(
    fields: &[u8],
    later: u8,
    reply: u8,
    priority: u8,
    each: usize,
    params: &[u8],
    out: &mut [u8],
    wrote: &mut usize,
    segments: &mut usize,
) -> u8
    ensures { Cuts (edition_of later) fields.now (way_at fields.now reply priority each) params.now out.old result wrote.new segments.new out.new }
{
    *wrote = 0;
    *segments = 0;
    if fields.len() != 13 {
        return Refusal::AreaSize.number();
    }
    let w = Way {
        reply: 0 < reply,
        priority,
        window: fields[9],
        each,
    };
    if let Err(r) = cutter::judge_front(w, params.len()) {
        return r.number();
    }
    if !segmented(fields[0]) {
        return Refusal::ApduType.number();
    }
    match cutter::cut(state::edition_of(later), message(fields), w, params, out) {
        Ok(e) => {
            *wrote = e.octets;
            *segments = e.segments;
            0
        }
        Err(r) => r.number(),
    }
}
