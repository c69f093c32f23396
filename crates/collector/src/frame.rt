// What a good frame does: header, APDU, tags, slots, area, report.
ghost use Rattle.std.specs.Prelude.{◌≡◌, true, false, ◌≤◌, length};
ghost use Rattle.octets.specs.Reading.{oct};
ghost use Rattle.octets.specs.Refusal.{number_of, fault_of};
ghost use Rattle.npdu.specs.Reading.{read_npdu};
ghost use Rattle.apdu.specs.Reading.{read_apdu};
ghost use Rattle.items.specs.Reading.{items_of};
ghost use Rattle.items.specs.Listing.{refusal_in};
ghost use Rattle.rebuild.specs.View.{view};
ghost use Rattle.rebuild.specs.Calls.{said_by, said_of, taken_of};
ghost use Rattle.reports.specs.Layout.{report_size, report_octets};
ghost use Rattle.reports.specs.Kinds.{damaged, refusal};
ghost use Rattle.collector.specs.Heard.{heard_of, route_of};
ghost use Rattle.collector.specs.Frame.{Content, by_tags, step_report, npdu_content, apdu_content, content_of};
ghost use Rattle.collector.specs.Acting.{acting, carrying, Carries, Named, Seated, Segmented, Takes, Acted, ActedAlone, SaidBehind, Lent, HearsAs, HearsBehind, Hears};

use crate::heard;
use crate::heard::{Heard, Parts, Route, Told};
use apdu::Edition;
use items::Unlisted;
use npdu::Npdu;
use octets::Refusal;
use rebuild::{Key, Segment, Slots, Step, Taken};
use reports::Report;

// Kind 2: damage.
pub fn put_damage(out: &mut [u8], n: u8)
    requires { length out.old ≡ report_size }
    ensures { out.new ≡ report_octets (damaged n) }
{
    reports::put(Report::damaged(n), out);
}

// Kind 6: refused.
fn put_refusal(out: &mut [u8], w: Heard, n: Refusal)
    requires { length out.old ≡ report_size }
    ensures { out.new ≡ report_octets (refusal w.frame (number_of n)) }
{
    reports::put(Report::refusal(w.frame, n.number()), out);
}

// The refusal of a tag. It only checks: no octets are lent for the records, and 61 is as good as success.
#[tactic(auto, using(crate::proofs::Content::number_bad, crate::proofs::Content::number_good, crate::proofs::Content::number_small))]
fn judge_tags(params: &[u8]) -> Result<(), Refusal>
    ensures { fault_of result ≡ refusal_in (items_of params.now) }
{
    match items::list(params, &mut []) {
        Ok(_) => Ok(()),
        Err(Unlisted::Small(_)) => Ok(()),
        Err(Unlisted::Refused(x)) => Err(x),
    }
}

// "its tags good", or kind 6 with the tag number.
#[tactic(auto, using(crate::proofs::Content::tags_put, crate::proofs::Content::tags_turn))]
fn put_by_tags(out: &mut [u8], params: &[u8], r: Report)
    requires { length out.old ≡ report_size }
    ensures { out.new ≡ report_octets (by_tags (items_of params.now) r) }
{
    match judge_tags(params) {
        Ok(()) => reports::put(r, out),
        Err(x) => reports::put(Report::refusal(r.frame, x.number()), out),
    }
}

// The report of a segment, from its answer and the area after it.
#[tactic(auto, using(crate::proofs::Content::answer_complete, crate::proofs::Content::answer_refused, crate::proofs::Content::answer_taken, crate::proofs::Content::answer_within))]
pub fn put_answer(w: Heard, m: Parts, step: Result<Step, u8>, out: &mut [u8], area: &[u8])
    requires { (length out.old ≡ report_size) × Named (said_by step) area.now }
    ensures { out.new ≡ report_octets (step_report w m (said_by step) area.now) }
{
    match step {
        Err(n) => reports::put(Report::refusal(w.frame, n), out),
        Ok(Step::Held(slot, held)) => {
            reports::put(
                Report::segment_taken(w.frame, m.apdu, slot, u32::from(held)),
                out,
            );
        }
        Ok(Step::Complete(slot, total)) => {
            let from = 16384 * usize::from(slot);
            let to = from + usize::from(total);
            put_by_tags(
                out,
                &area[from..to],
                Report::complete(w.frame, m.apdu, slot, u32::from(total)),
            );
        }
    }
}

// The same from what rebuilding answered.
pub fn put_taken(w: Heard, m: Parts, step: Result<Step, Refusal>, out: &mut [u8], area: &[u8])
    requires { (length out.old ≡ report_size) × Named (said_of step) area.now }
    ensures { out.new ≡ report_octets (step_report w m (said_of step) area.now) }
{
    match step {
        Ok(s) => put_answer(w, m, Ok(s), out, area),
        Err(n) => put_answer(w, m, Err(n.number()), out, area),
    }
}

// A segment, with the addresses of its network header: rebuilding alone. Its report is put behind it (`put_answer`), so that the slots are off the stack when tags are judged.
#[tactic(auto, using(crate::proofs::Content::segment_is, crate::proofs::Actions::segment_taken_lem))]
pub fn take(w: Heard, v: Route, m: Parts, a: &[u8], slots: Slots, area: &mut [u8]) -> Taken
    requires { Seated slots area.old × Segmented m a.now }
    ensures { Takes w v m a.now slots area.old (taken_of result) area.new }
{
    let g = Segment {
        key: Key {
            source: w.frame.source,
            destination: w.frame.destination,
            kind: m.kind,
            invoke: m.apdu.invoke,
            from: v.source,
            to: v.destination,
        },
        number: m.segment.number,
        mor: m.segment.mor,
        choice: m.apdu.choice,
    };
    rebuild::take(slots, g, &a[m.params..], area)
}

// A segment: rebuilding, then its report.
#[tactic(auto, using(crate::proofs::Actions::lent_seated, crate::proofs::Actions::takes_acted))]
fn act_segment(
    w: Heard,
    v: Route,
    m: Parts,
    a: &[u8],
    slots: Slots,
    out: &mut [u8],
    area: &mut [u8],
) -> Slots
    requires { Lent out.old slots area.old × Segmented m a.now }
    ensures { Acted (acting w (Content.message v m a.now) (view slots) area.old) result out.new area.new }
{
    let t = take(w, v, m, a, slots, area);
    put_taken(w, m, t.answer, out, area);
    t.slots
}

// An APDU that is no segment, whatever its addresses: its tags are judged.
#[tactic(auto, using(crate::proofs::Content::plain_put))]
fn put_plain(w: Heard, m: Parts, a: &[u8], out: &mut [u8])
    requires { (length out.old ≡ report_size) × ((m.params ≤ length a.now) × (length a.now ≤ 501)) }
    ensures { SaidBehind w (λ v. Content.message v m a.now) out.new }
{
    put_by_tags(
        out,
        &a[m.params..],
        Report::unsegmented(w.frame, m.apdu, a.len() as u32),
    );
}

// An APDU at a place, by its octets, behind its network header.
#[tactic(auto, using(crate::proofs::Hearing::apdu_alone, crate::proofs::Hearing::apdu_part, crate::proofs::Hearing::apdu_turned, crate::proofs::Content::parts_within, crate::proofs::Content::some_octets_lem))]
fn hear_apdu(w: Heard, h: Npdu, a: &[u8], at: usize, out: &mut [u8]) -> Option<Told>
    requires { (length out.old ≡ report_size) × (length a.now ≤ 501) }
    ensures { HearsBehind w (apdu_content (route_of h) a.now (read_apdu w.edition a.now)) at a.now out.old result out.new }
{
    match apdu::read(w.edition, a) {
        Err(n) => {
            put_refusal(out, w, n);
            None
        }
        Ok(p) => {
            let m = heard::parts_of(p, a[0]);
            if m.segment.seg {
                return Some(Told {
                    at,
                    route: Route::from(h),
                    parts: m,
                });
            }
            put_plain(w, m, a, out);
            None
        }
    }
}

// The data of a frame of type 5 or 6: the network header, and what follows it.
#[tactic(auto, using(crate::proofs::Content::next_inside, crate::proofs::Hearing::npdu_on, crate::proofs::Hearing::npdu_spoken, crate::proofs::Hearing::npdu_turned))]
fn hear_npdu(w: Heard, payload: &[u8], out: &mut [u8]) -> Option<Told>
    requires { (length out.old ≡ report_size) × (length payload.now ≤ 501) }
    ensures { HearsAs w (npdu_content w.edition payload.now (read_npdu payload.now)) payload.now out.old result out.new }
{
    match npdu::read(payload) {
        Err(n) => {
            put_refusal(out, w, n);
            None
        }
        Ok(h) => {
            if h.npdu.message {
                reports::put(
                    Report::network_message(w.frame, (payload.len() - h.next) as u32),
                    out,
                );
                return None;
            }
            hear_apdu(w, h.npdu, &payload[h.next..], h.next, out)
        }
    }
}

// Whether a good frame carries a network header. Slots move by such a frame alone.
#[tactic(auto, using(octets::specs::Rules::tests))]
pub fn carries(head: [u8; 5]) -> bool
    ensures { result ≡ carrying (oct head 0) }
{
    matches!(head[0], 5 | 6)
}

// A good frame of type 5 or 6, read by an edition: reported, unless it is a segment.
#[tactic(auto, using(crate::proofs::Hearing::frame_heard))]
pub fn hear(edition: Edition, head: [u8; 5], payload: &[u8], out: &mut [u8]) -> Option<Told>
    requires { Carries true head payload.now × (length out.old ≡ report_size) }
    ensures { Hears (heard_of edition head) payload.now out.old result out.new }
{
    hear_npdu(heard::heard_of(edition, head), payload, out)
}

// A good frame of type 5 or 6: its head and its data, read by an edition.
#[tactic(auto, using(crate::proofs::Actions::acted_heard, crate::proofs::Hearing::heard_alone, crate::proofs::Hearing::heard_collected, crate::proofs::Hearing::heard_inside, crate::proofs::Hearing::heard_line, crate::proofs::Hearing::heard_segment))]
pub fn act(
    edition: Edition,
    head: [u8; 5],
    payload: &[u8],
    slots: Slots,
    out: &mut [u8],
    area: &mut [u8],
) -> Slots
    requires { Carries true head payload.now × Lent out.old slots area.old }
    ensures { Acted (acting (heard_of edition head) (content_of (heard_of edition head) payload.now) (view slots) area.old) result out.new area.new }
{
    let Some(t) = hear(edition, head, payload, out) else {
        return slots;
    };
    let w = heard::heard_of(edition, head);
    act_segment(w, t.route, t.parts, &payload[t.at..], slots, out, area)
}

// A good frame of another type, whatever edition, slots and message area are.
#[tactic(auto, using(crate::proofs::Actions::frame_uncarried))]
pub fn put_other(head: [u8; 5], payload: &[u8], out: &mut [u8])
    requires { Carries false head payload.now × (length out.old ≡ report_size) }
    ensures { ActedAlone head payload.now out.new }
{
    reports::put(
        Report::other_frame(heard::frame_of(head), payload.len() as u32),
        out,
    );
}
