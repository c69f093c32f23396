// One trunk: its state is octets that the caller lends.
ghost use Rattle.collector.specs.Calls.{fresh_collector};
ghost use Rattle.state.specs.Calls.{Saves};
ghost use Rattle.state.specs.Edition.{edition_of};
ghost use Rattle.hitchbarley.specs.Trunk.{Feeds, Stills, Forgets};

use hitchbarley::trunk_calls;

// Makes a fresh state of the edition that `later` says: 0 is 1995, any other number the later one. 0, or 60.
#[unsafe(no_mangle)]
pub extern "C" fn hb_fresh(state: &mut [u8], later: u8) -> u8
    ensures { Saves (fresh_collector (edition_of later)) state.old result state.new }
{
    trunk_calls::hb_fresh(state, later)
}

// Eats a piece's octets through the first that causes a report, else all: 0, 60 or 59.
#[unsafe(no_mangle)]
pub extern "C" fn hb_feed(
    state: &mut [u8],
    piece: &[u8],
    report: &mut [u8],
    area: &mut [u8],
    eaten: &mut usize,
    reported: &mut u8,
) -> u8
    ensures { Feeds state.old report.old area.old piece.now result eaten.new reported.new state.new report.new area.new }
{
    trunk_calls::hb_feed(state, piece, report, area, eaten, reported)
}

// The line fell silent: 0, 60 or 59.
#[unsafe(no_mangle)]
pub extern "C" fn hb_silence(state: &mut [u8], report: &mut [u8], reported: &mut u8) -> u8
    ensures { Stills state.old report.old result reported.new state.new report.new }
{
    trunk_calls::hb_silence(state, report, reported)
}

// Frees a slot: 0, 60, 59 or 56.
#[unsafe(no_mangle)]
pub extern "C" fn hb_forget(state: &mut [u8], slot: u8) -> u8
    ensures { Forgets state.old slot result state.new }
{
    trunk_calls::hb_forget(state, slot)
}
