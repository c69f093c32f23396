// One trunk: its state is octets that the caller lends.
ghost use Rattle.collector.specs.Calls.{fresh_collector};
ghost use Rattle.state.specs.Calls.{Saves};
ghost use Rattle.state.specs.Edition.{edition_of};
ghost use Rattle.hitchbarley.specs.Feeding.{Judged, Framed, FrameActs, Heeded, SegmentActs};
ghost use Rattle.hitchbarley.specs.Trunk.{Feeds, Stills, Forgets};

use collector::heard::Told;
use collector::{Collector, frame, heard, lent};
use frames::Outcome;
use octets::Refusal;

// Makes a fresh state of the edition that `later` says: 0 is 1995, any other number the later one. 0, or 60.
pub fn hb_fresh(state: &mut [u8], later: u8) -> u8
    ensures { Saves (fresh_collector (edition_of later)) state.old result state.new }
{
    let c = Collector::fresh(state::edition_of(later));
    octets::fault(state::save(c, state))
}

// A segment, heard in the good frame whose head and data stand in the state area: slots are lifted, and laid back, for it alone.
fn segment(state: &mut [u8], t: Told, report: &mut [u8], area: &mut [u8])
    requires { Heeded state.old report.old area.old t }
    ensures { SegmentActs state.old area.old t state.new report.new area.new }
{
    let head = state::head_at(state);
    let end = state::STORE + usize::from(frames::length_of(head));
    let from = state::STORE + t.at;
    let edition = state::edition_of(state[state::EDITION]);
    let w = heard::heard_of(edition, head);
    let slots = state::slots_at(state);
    let r = frame::take(w, t.route, t.parts, &state[from..end], slots, area);
    let _ = state::lay_slots(r.slots, state);
    frame::put_taken(w, t.parts, r.answer, report, area);
}

// A good frame, whose head and data stand in the state area.
fn good_frame(state: &mut [u8], report: &mut [u8], area: &mut [u8])
    requires { Framed state.old report.old area.old }
    ensures { FrameActs state.old area.old state.new report.new area.new }
{
    let head = state::head_at(state);
    let end = state::STORE + usize::from(frames::length_of(head));
    if !frame::carries(head) {
        frame::put_other(head, &state[state::STORE..end], report);
        return;
    }
    let edition = state::edition_of(state[state::EDITION]);
    if let Some(t) = frame::hear(edition, head, &state[state::STORE..end], report) {
        segment(state, t, report, area);
    }
}

// A piece eaten where the state's octets stand, in a state that 59 passes.
fn feed_on(
    state: &mut [u8],
    piece: &[u8],
    report: &mut [u8],
    area: &mut [u8],
    eaten: &mut usize,
    reported: &mut u8,
)
    requires { Judged state.old report.old area.old }
    ensures { Feeds state.old report.old area.old piece.now 0 eaten.new reported.new state.new report.new area.new }
{
    let f = feeding::eat(state, piece);
    *eaten = f.eaten;
    match f.outcome {
        Outcome::Quiet => {
            *reported = 0;
        }
        Outcome::Damage(d) => {
            *reported = 1;
            frame::put_damage(report, d);
        }
        Outcome::Frame => {
            *reported = 1;
            good_frame(state, report, area);
        }
    }
}

// Eats a piece's octets through the first that causes a report, else all: 0, 60 or 59.
#[tactic(auto, unfolding(crate::specs::Trunk::feed_left, crate::specs::Trunk::feed_bar, crate::specs::Trunk::bar))]
pub fn hb_feed(
    state: &mut [u8],
    piece: &[u8],
    report: &mut [u8],
    area: &mut [u8],
    eaten: &mut usize,
    reported: &mut u8,
) -> u8
    ensures { Feeds state.old report.old area.old piece.now result eaten.new reported.new state.new report.new area.new }
{
    *eaten = 0;
    *reported = 0;
    if report.len() != reports::SIZE || area.len() != 65536 {
        return Refusal::AreaSize.number();
    }
    if let Err(r) = state::judge(state) {
        return r.number();
    }
    feed_on(state, piece, report, area, eaten, reported);
    0
}

// The line fell silent: 0, 60 or 59.
#[tactic(auto, unfolding(crate::specs::Trunk::silence_left, crate::specs::Trunk::silence_bar, crate::specs::Trunk::bar))]
pub fn hb_silence(state: &mut [u8], report: &mut [u8], reported: &mut u8) -> u8
    ensures { Stills state.old report.old result reported.new state.new report.new }
{
    *reported = 0;
    if report.len() != reports::SIZE {
        return Refusal::AreaSize.number();
    }
    let link = match state::still(state) {
        Ok(link) => link,
        Err(r) => return r.number(),
    };
    match lent::hush(link, report) {
        Ok(h) => {
            let _ = state::lay_link(h.link, state);
            *reported = u8::from(h.reported);
            0
        }
        Err(r) => r.number(),
    }
}

// Frees a slot: 0, 60, 59 or 56.
pub fn hb_forget(state: &mut [u8], slot: u8) -> u8
    ensures { Forgets state.old slot result state.new }
{
    let o = match state::lift(state) {
        Ok(o) => o,
        Err(r) => return r.number(),
    };
    match lent::forget(o.link, o.slots, slot) {
        Ok(slots) => {
            let _ = state::lay_slots(slots, state);
            0
        }
        Err(r) => r.number(),
    }
}
