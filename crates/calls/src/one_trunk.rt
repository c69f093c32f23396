// A trunk's calls, over a state area and a message area of any size.
use crate::areas::{Area, INPUT, OUTPUT};
use crate::print;
use crate::text::{self, Line};
use hitchbarley::{replay_calls, trunk_calls, writer_calls};

#[derive(Clone, Copy)]
pub enum Call {
    Fresh,
    State,
    Area,
    Silence,
    Forget,
    Feed,
    Frame,
    ShowState,
    ShowArea,
    AreaAt,
    Replay,
}

impl Call {
    pub fn named(name: &[u8]) -> Option<Call> {
        match name {
            b"fresh" => Some(Call::Fresh),
            b"state" => Some(Call::State),
            b"area" => Some(Call::Area),
            b"silence" => Some(Call::Silence),
            b"forget" => Some(Call::Forget),
            b"feed" => Some(Call::Feed),
            b"frame" => Some(Call::Frame),
            b"show-state" => Some(Call::ShowState),
            b"show-area" => Some(Call::ShowArea),
            b"area-at" => Some(Call::AreaAt),
            b"replay" => Some(Call::Replay),
            _ => None,
        }
    }
}

// Its two areas. What is done with them by a call of large arrays is laid into no other function, so that the arrays of one call alone are on the stack.
#[derive(Drop)]
pub struct Trunk<'a> {
    state: Area<'a>,
    message: Area<'a>,
}

impl<'a> Trunk<'a> {
    // At first the state area has no octets, and the message area has 65,536.
    pub fn new(state: &'a mut [u8; 700], message: &'a mut [u8; OUTPUT]) -> Trunk<'a> {
        Trunk {
            state: Area::new(state, 0),
            message: Area::new(message, 65536),
        }
    }

    pub fn line(&mut self, rt: &impl Print, call: Call, line: Line) {
        match call {
            Call::Fresh => self.fresh(rt, line),
            Call::State => self.state.lay(line.group(1)),
            Call::Area => self.area(line),
            Call::Silence => self.silence(rt, line),
            Call::Forget => self.forget(rt, line),
            Call::Feed => self.feed_octets(rt, line),
            Call::Frame => self.feed_frame(rt, line),
            Call::ShowState => print::area(rt, b"  state", self.state.lent()),
            Call::ShowArea => print::area(rt, b"  area", self.message.lent()),
            Call::AreaAt => self.lay(line),
            Call::Replay => self.replay_records(rt, line),
        }
    }

    fn fresh(&mut self, rt: &impl Print, line: Line) {
        self.state.fill(0xEE, line.number(1));
        print::start(rt, trunk_calls::hb_fresh(self.state.lent(), line.edition()));
        print::end(rt);
        print::area(rt, b"  state", self.state.lent());
    }

    // A message area of one octet.
    fn area(&mut self, line: Line) {
        let mut octet = [0u8; 1];
        text::words(line.group(1), &mut octet);
        self.message.fill(octet[0], line.number(1));
    }

    // Octets laid over the message area's.
    #[inline(never)]
    fn lay(&mut self, line: Line) {
        let mut octets = [0; INPUT];
        let octets = Area::of(&mut octets, line.group(1));
        text::lay(self.message.lent(), line.number(1), octets.shown());
    }

    #[inline(never)]
    fn feed_octets(&mut self, rt: &impl Print, line: Line) {
        let mut octets = [0; INPUT];
        let octets = Area::of(&mut octets, line.group(1));
        self.feed(rt, line, octets.shown());
    }

    #[inline(never)]
    fn feed_frame(&mut self, rt: &impl Print, line: Line) {
        let mut octets = [0; INPUT];
        let octets = framed(line, &mut octets);
        self.feed(rt, line, octets.shown());
    }

    #[inline(never)]
    fn replay_records(&mut self, rt: &impl Print, line: Line) {
        let mut octets = [0; INPUT];
        let octets = Area::of(&mut octets, line.group(1));
        self.replay(rt, line, octets.shown());
    }

    // A piece, with a report area of the line's size.
    #[inline(never)]
    fn feed(&mut self, rt: &impl Print, line: Line, piece: &[u8]) {
        let mut report = [0xEE; OUTPUT];
        let mut report = Area::new(&mut report, line.number(1));
        let mut eaten: usize = 99;
        let mut reported: u8 = 99;
        let r = trunk_calls::hb_feed(
            self.state.lent(),
            piece,
            report.lent(),
            self.message.lent(),
            &mut eaten,
            &mut reported,
        );
        eaten_end(rt, r, eaten, reported, &report);
    }

    // Records, with a report area of the line's size.
    #[inline(never)]
    fn replay(&mut self, rt: &impl Print, line: Line, records: &[u8]) {
        let mut report = [0xEE; OUTPUT];
        let mut report = Area::new(&mut report, line.number(1));
        let mut eaten: usize = 99;
        let mut reported: u8 = 99;
        let r = replay_calls::hb_replay(
            self.state.lent(),
            records,
            report.lent(),
            self.message.lent(),
            &mut eaten,
            &mut reported,
        );
        eaten_end(rt, r, eaten, reported, &report);
    }

    #[inline(never)]
    fn silence(&mut self, rt: &impl Print, line: Line) {
        let mut report = [0xEE; OUTPUT];
        let mut report = Area::new(&mut report, line.number(1));
        let mut reported: u8 = 99;
        let r = trunk_calls::hb_silence(self.state.lent(), report.lent(), &mut reported);
        print::start(rt, r);
        reported_end(rt, reported, &report);
    }

    fn forget(&mut self, rt: &impl Print, line: Line) {
        print::start(rt, trunk_calls::hb_forget(self.state.lent(), line.octet(1)));
        print::end(rt);
    }
}

fn reported_end(rt: &impl Print, reported: u8, report: &Area) {
    print::named(rt, b" reported ", usize::from(reported));
    print::end(rt);
    print::area(rt, b"  report", report.shown());
}

// What a piece of octets or of records answered.
fn eaten_end(rt: &impl Print, r: u8, eaten: usize, reported: u8, report: &Area) {
    print::start(rt, r);
    print::named(rt, b" eaten ", eaten);
    reported_end(rt, reported, report);
}

// A frame with its checks, or nothing where its data are too many.
#[inline(never)]
fn framed<'a>(line: Line, octets: &'a mut [u8]) -> Area<'a> {
    let mut head = [0u8; 3];
    text::words(line.group(1), &mut head);
    let mut payload = [0; INPUT];
    let payload = Area::of(&mut payload, line.group(2));
    let mut wrote: usize = 0;
    writer_calls::hb_frame_write(
        head[0],
        head[1],
        head[2],
        payload.shown(),
        octets,
        &mut wrote,
    );
    Area::new(octets, wrote)
}
