// Replaying recorded trunks: records of four octets, each by the collector's own call, reported as feeding is.
#![tactic(auto)]

pub mod lent;
mod orders;

ghost use Rattle.playback.specs.Answers.{played_of};
ghost use Rattle.playback.specs.Calls.{Plays};

use collector::Collector;
use frames::Receiver;
use octets::Refusal;

// The octets of a record: kind (0 octet, 1 silence, 2 forget), value, two zeros.
pub const SIZE: usize = 4;

// The answer to records: 60, 59, 68 or 67, or none; the records eaten; whether a report was written.
#[derive(Clone, Copy)]
pub struct Played {
    pub answer: Result<(), Refusal>,
    pub eaten: usize,
    pub reported: bool,
    pub state: Collector,
}

// Eats records through the first that causes a report, else up to a bad one, else all.
pub fn replay(state: Collector, records: &[u8], report: &mut [u8], area: &mut [u8]) -> Played
    ensures { Plays state report.old area.old records.now (played_of result) report.new area.new }
{
    let mut store = state.receiver.store;
    let w = lent::replay(
        state.edition,
        state.receiver.link,
        state.slots,
        &mut store,
        records,
        report,
        area,
    );
    Played {
        answer: w.answer,
        eaten: w.eaten,
        reported: w.reported,
        state: Collector {
            receiver: Receiver {
                link: w.link,
                store,
            },
            slots: w.slots,
            ..state
        },
    }
}
