// Recorded trunks: records of four octets, replayed over the state octets that the caller lends.
ghost use Rattle.hitchbarley.specs.Replay.{Replays};

use octets::Refusal;

// Eats records through the first that causes a report, else up to a bad one, else all: 0, 60, 59, 68 or 67. With 67 the records before the bad one are eaten.
#[tactic(auto, unfolding(crate::specs::Replay::replay_left, crate::specs::Trunk::feed_bar, crate::specs::Trunk::bar))]
pub fn hb_replay(
    state: &mut [u8],
    records: &[u8],
    report: &mut [u8],
    area: &mut [u8],
    eaten: &mut usize,
    reported: &mut u8,
) -> u8
    ensures { Replays state.old report.old area.old records.now result eaten.new reported.new state.new report.new area.new }
{
    *eaten = 0;
    *reported = 0;
    if report.len() != reports::SIZE || area.len() != 65536 {
        return Refusal::AreaSize.number();
    }
    let o = match state::lift(state) {
        Ok(o) => o,
        Err(r) => return r.number(),
    };
    let f = playback::lent::replay(
        o.edition,
        o.link,
        o.slots,
        &mut state[state::STORE..state::STORE_END],
        records,
        report,
        area,
    );
    *eaten = f.eaten;
    *reported = u8::from(f.reported);
    let _ = if f.moved {
        state::lay(f.link, f.slots, state)
    } else {
        state::lay_link(f.link, state)
    };
    octets::fault(f.answer)
}
