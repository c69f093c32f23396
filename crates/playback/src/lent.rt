// The same call over a lent frame store: link and slots go in and come back, the store stays where it is, the edition with whoever lends it.
// Stays: (d) link, slots, store, report and area are parameters of their own, as the collector's calls have them (collector/src/lent.rt): a struct of the five would be put together and taken apart at each of those.
ghost use Rattle.std.specs.Prelude.{◌≡◌, length, ◌≤◌};
ghost use Rattle.octets.specs.Refusal.{number_of, fault_of};
ghost use Rattle.collector.specs.Answers.{ate_of};
ghost use Rattle.playback.specs.Answers.{went_of};
ghost use Rattle.playback.specs.Lent.{Replays, stayed, Judges, LendsWhole, LendsRecord, LendsOctet, Runs, Turned};

use crate::orders::Order;
use crate::{SIZE, orders};
use apdu::Edition;
use collector::lent;
use collector::lent::Ate;
use frames::{Link, Phase};
use octets::Refusal;
use rebuild::Slots;

// The answer: 60, 59, 68 or 67, or none; the records eaten; whether a report was written; whether the slots may have moved.
#[derive(Clone, Copy)]
pub struct Went {
    pub answer: Result<(), Refusal>,
    pub eaten: usize,
    pub reported: bool,
    pub moved: bool,
    pub link: Link,
    pub slots: Slots,
}

// 60 or 59, judged before any record, and by no turn again.
fn judge(link: Link, slots: Slots, report: usize, area: usize) -> Result<(), Refusal>
    ensures { Judges link slots report area (fault_of result) }
{
    if report != reports::SIZE || area != 65536 {
        return Err(Refusal::AreaSize);
    }
    if !rebuild::sound(slots) || !link.sound() {
        return Err(Refusal::UnfitState);
    }
    Ok(())
}

// A refused call: nothing eaten, nothing changed.
fn stay(link: Link, slots: Slots, n: Refusal) -> Went
    ensures { went_of result ≡ stayed (number_of n) link slots }
{
    Went {
        answer: Err(n),
        eaten: 0,
        reported: false,
        moved: false,
        link,
        slots,
    }
}

// How many octets to feed together: about to the end of what is coming in, so that at most five are gathered behind a report. Any number from 1 to 64 is right; a small one has the link fed more often.
fn span(link: Link) -> usize
    ensures { (1 ≤ result) × (result ≤ 64) }
{
    match link.phase {
        Phase::Hunting => 8,
        Phase::Preamble => 7,
        Phase::Header(_) => 6,
        Phase::Data(got) => {
            let left = frames::length_of(link.head).saturating_sub(got);
            usize::from(left.min(62)) + 2
        }
    }
}

// The octet records in front: the link eats them together, and what the last of them ended is done as feeding does it.
fn eat(
    edition: Edition,
    link: Link,
    slots: Slots,
    store: &mut [u8],
    rest: &[u8],
    report: &mut [u8],
    area: &mut [u8],
) -> Result<Ate, Refusal>
    requires { LendsOctet link slots store.old report.old area.old rest.now }
    ensures { Turned edition link slots store.old report.old area.old rest.now (ate_of link slots result) store.new report.new area.new }
{
    let mut piece = [0; 64];
    let n = orders::gather(rest, span(link), &mut piece);
    lent::eat(edition, link, slots, store, &piece[..n], report, area)
}

// The next record, and the octet records that follow one; or 67. Link and slots are ones that 59 passes, so a silence is not refused.
fn turn(
    edition: Edition,
    link: Link,
    slots: Slots,
    store: &mut [u8],
    rest: &[u8],
    report: &mut [u8],
    area: &mut [u8],
) -> Result<Ate, Refusal>
    requires { LendsRecord link slots store.old report.old area.old rest.now }
    ensures { Turned edition link slots store.old report.old area.old rest.now (ate_of link slots result) store.new report.new area.new }
{
    match orders::order_of(rest[0], rest[1], rest[2], rest[3])? {
        Order::Octet(_) => eat(edition, link, slots, store, rest, report, area),
        Order::Silence => {
            let h = lent::hush(link, report)?;
            Ok(Ate {
                eaten: 1,
                reported: h.reported,
                moved: false,
                link: h.link,
                slots,
            })
        }
        Order::Forget(i) => Ok(Ate {
            eaten: 1,
            reported: false,
            moved: true,
            link,
            slots: rebuild::forget(slots, i).unwrap_or(slots),
        }),
    }
}

// The records, turn by turn, in a state that 59 passes.
fn run(
    edition: Edition,
    link: Link,
    slots: Slots,
    store: &mut [u8],
    records: &[u8],
    report: &mut [u8],
    area: &mut [u8],
) -> Went
    requires { LendsWhole link slots store.old report.old area.old records.now }
    ensures { Runs edition link slots store.old report.old area.old records.now (went_of result) store.new report.new area.new }
{
    let mut w = Went {
        answer: Ok(()),
        eaten: 0,
        reported: false,
        moved: false,
        link,
        slots,
    };
    // Stays: (d) each turn goes on by as many records as it ate.
    while SIZE * w.eaten < records.len() {
        let rest = &records[SIZE * w.eaten..];
        match turn(edition, w.link, w.slots, store, rest, report, area) {
            Ok(t) => {
                w = Went {
                    eaten: w.eaten + t.eaten,
                    reported: t.reported,
                    moved: w.moved | t.moved,
                    link: t.link,
                    slots: t.slots,
                    ..w
                };
                if w.reported {
                    return w;
                }
            }
            Err(n) => {
                return Went {
                    answer: Err(n),
                    ..w
                };
            }
        }
    }
    w
}

// Eats records through the first that causes a report, else up to a bad one, else all.
pub fn replay(
    edition: Edition,
    link: Link,
    slots: Slots,
    store: &mut [u8],
    records: &[u8],
    report: &mut [u8],
    area: &mut [u8],
) -> Went
    requires { length store.old ≡ 501 }
    ensures { Replays edition link slots store.old report.old area.old records.now (went_of result) store.new report.new area.new }
{
    if let Err(n) = judge(link, slots, report.len(), area.len()) {
        return stay(link, slots, n);
    }
    if records.len() % SIZE != 0 {
        return stay(link, slots, Refusal::OddRecords);
    }
    run(edition, link, slots, store, records, report, area)
}
