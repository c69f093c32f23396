// A recording, replayed.
ghost use Rattle.hitchbarley.specs.Replay.{Replays};

use hitchbarley::replay_calls;

// Eats records through the first that causes a report, else up to a bad one, else all: 0, 60, 59, 68 or 67. With 67 the records before the bad one are eaten.
#[unsafe(no_mangle)]
pub extern "C" fn hb_replay(
    state: &mut [u8],
    records: &[u8],
    report: &mut [u8],
    area: &mut [u8],
    eaten: &mut usize,
    reported: &mut u8,
) -> u8
    ensures { Replays state.old report.old area.old records.now result eaten.new reported.new state.new report.new area.new }
{
    replay_calls::hb_replay(state, records, report, area, eaten, reported)
}
