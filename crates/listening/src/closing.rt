// The closing line: octets, reports by kind, and the octets that belong to no frame.
use crate::ear::Ear;
use crate::output::{self, Output};
use words::Pen;

// Frames by kind, damages, refusals and octets outside frames; whether no frame was found.
fn text(pen: &mut Pen, ear: &Ear) {
    let [
        _,
        frames,
        damages,
        messages,
        segments,
        rebuilt,
        refusals,
        network,
        ..
    ] = ear.counts;
    let octets = ear.octets;
    let outside = octets.wrapping_sub(ear.framed);
    write!(
        pen,
        "end: {octets} octets, {frames} frames without a message, {messages} messages, {segments} segments, {rebuilt} rebuilt messages, {network} network layer messages"
    );
    write!(
        pen,
        ", {damages} damages, {refusals} refusals, {outside} octets outside frames"
    );
    if octets == 0 {
        pen.put(b": the input is empty");
    } else if ear.framed == 0 {
        pen.put(b": no frame in the input");
    }
    pen.one(b'\n');
}

// On standard output behind the other lines; on standard error where that has a table.
pub fn line(rt: &(impl Print + Eprint), ear: &Ear, table: bool, out: &mut Output) {
    if table {
        out.flush(rt);
        let mut pen = out.pen();
        text(&mut pen, ear);
        return output::aside(rt, pen.written());
    }
    let mut pen = out.pen();
    text(&mut pen, ear);
    let at = pen.at();
    out.keep(at);
    out.flush(rt);
}
