// Frames written and messages cut.
use crate::areas::{Area, INPUT, OUTPUT};
use crate::print;
use crate::text::Line;
use hitchbarley::writer_calls;

#[derive(Clone, Copy)]
pub enum Call {
    FrameWrite,
    Cut,
}

impl Call {
    pub fn named(name: &[u8]) -> Option<Call> {
        match name {
            b"frame-write" => Some(Call::FrameWrite),
            b"cut" => Some(Call::Cut),
            _ => None,
        }
    }

    // In a frame of its own, which the arrays take; so are `frame` and `cut`.
    #[inline(never)]
    pub fn line(self, rt: &impl Print, line: Line) {
        let mut one = [0; INPUT];
        let mut two = [0; INPUT];
        let one = Area::of(&mut one, line.group(1));
        let two = Area::of(&mut two, line.group(2));
        match self {
            Call::FrameWrite => frame(rt, line, one.shown()),
            Call::Cut => cut(rt, line, one.shown(), two.shown()),
        }
    }
}

// The answer, and the octets written.
fn start(rt: &impl Print, r: u8, wrote: usize) {
    print::start(rt, r);
    print::named(rt, b" wrote ", wrote);
}

// The area that was lent.
fn end(rt: &impl Print, out: &Area) {
    print::end(rt);
    print::area(rt, b"  out", out.shown());
}

#[inline(never)]
fn frame(rt: &impl Print, line: Line, payload: &[u8]) {
    let mut out = [0xEE; OUTPUT];
    let mut out = Area::new(&mut out, line.number(4));
    let mut wrote: usize = 99;
    let r = writer_calls::hb_frame_write(
        line.octet(1),
        line.octet(2),
        line.octet(3),
        payload,
        out.lent(),
        &mut wrote,
    );
    start(rt, r, wrote);
    end(rt, &out);
}

#[inline(never)]
fn cut(rt: &impl Print, line: Line, fields: &[u8], params: &[u8]) {
    let mut out = [0xEE; OUTPUT];
    let mut out = Area::new(&mut out, line.number(5));
    let mut wrote: usize = 99;
    let mut segments: usize = 99;
    let r = writer_calls::hb_cut(
        fields,
        line.octet(1),
        line.octet(2),
        line.octet(3),
        line.number(4),
        params,
        out.lent(),
        &mut wrote,
        &mut segments,
    );
    start(rt, r, wrote);
    print::named(rt, b" segments ", segments);
    end(rt, &out);
}
