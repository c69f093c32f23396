// The same calls over a lent frame store: link and slots go in and come back, the store stays where it is, the edition with whoever lends it.
// Stays: (d) link, slots, store, report and area are parameters of their own: who calls lends store, report and area each out of its own memory, and a struct of the five would be put together for each call to be taken apart here.
ghost use Rattle.std.specs.Prelude.{◌≡◌, length};
ghost use Rattle.reports.specs.Layout.{report_size};
ghost use Rattle.collector.specs.Acting.{Lent};
ghost use Rattle.collector.specs.Answers.{ate_of, hushed_of, freed_of};
ghost use Rattle.collector.specs.Lent.{Eats, Hushes, HushesBeside, Frees};

use crate::frame;
use apdu::Edition;
use frames::{Link, Outcome};
use octets::Refusal;
use rebuild::Slots;

// The answer to a piece: the octets eaten; whether a report was written; whether the slots may have moved.
#[derive(Clone, Copy)]
pub struct Ate {
    pub eaten: usize,
    pub reported: bool,
    pub moved: bool,
    pub link: Link,
    pub slots: Slots,
}

// The answer to a silence; the slots are as they were.
#[derive(Clone, Copy)]
pub struct Hushed {
    pub reported: bool,
    pub link: Link,
}

// A piece that 60 and the slots' part of 59 passed: what the link ate, and what the last of it ended.
#[tactic(auto, using(crate::proofs::Eaten::carried, crate::proofs::Eaten::data_inside, crate::proofs::Eaten::data_short, crate::proofs::Eaten::data_taken, crate::proofs::Eaten::eats_carried, crate::proofs::Eaten::eats_damage, crate::proofs::Eaten::eats_left, crate::proofs::Eaten::eats_other, crate::proofs::Eaten::eats_quiet))]
pub fn eat(
    edition: Edition,
    link: Link,
    slots: Slots,
    store: &mut [u8],
    piece: &[u8],
    report: &mut [u8],
    area: &mut [u8],
) -> Result<Ate, Refusal>
    requires { (length store.old ≡ 501) × Lent report.old slots area.old }
    ensures { Eats edition link slots store.old report.old area.old piece.now (ate_of link slots result) store.new report.new area.new }
{
    let f = link.feed(piece, store)?;
    let ate = Ate {
        eaten: f.eaten,
        reported: false,
        moved: false,
        link: f.link,
        slots,
    };
    match f.outcome {
        Outcome::Quiet => Ok(ate),
        Outcome::Damage(n) => {
            frame::put_damage(report, n);
            Ok(Ate {
                reported: true,
                ..ate
            })
        }
        Outcome::Frame => {
            let head = f.link.head;
            let n = usize::from(frames::length_of(head));
            if frame::carries(head) {
                let slots = frame::act(edition, head, &store[..n], slots, report, area);
                return Ok(Ate {
                    reported: true,
                    moved: true,
                    slots,
                    ..ate
                });
            }
            frame::put_other(head, &store[..n], report);
            Ok(Ate {
                reported: true,
                ..ate
            })
        }
    }
}

// Eats octets through the first that causes a report, else all.
#[tactic(auto, using(crate::proofs::Eaten::eats_area, crate::proofs::Eaten::eats_line, crate::proofs::Eaten::eats_slots, crate::proofs::Eaten::fair_slots))]
pub fn feed(
    edition: Edition,
    link: Link,
    slots: Slots,
    store: &mut [u8],
    piece: &[u8],
    report: &mut [u8],
    area: &mut [u8],
) -> Result<Ate, Refusal>
    requires { length store.old ≡ 501 }
    ensures { Eats edition link slots store.old report.old area.old piece.now (ate_of link slots result) store.new report.new area.new }
{
    if report.len() != reports::SIZE || area.len() != 65536 {
        return Err(Refusal::AreaSize);
    }
    if !rebuild::sound(slots) {
        return Err(Refusal::UnfitState);
    }
    eat(edition, link, slots, store, piece, report, area)
}

// A silence beside slots that 59 passes, whatever they are.
#[tactic(auto, using(crate::proofs::Hushed::hush_damage, crate::proofs::Hushed::hush_frame, crate::proofs::Hushed::hush_left, crate::proofs::Hushed::hush_quiet))]
pub fn hush(link: Link, report: &mut [u8]) -> Result<Hushed, Refusal>
    requires { length report.old ≡ report_size }
    ensures { HushesBeside link report.old (hushed_of link result) report.new }
{
    let f = link.silence()?;
    match f.outcome {
        Outcome::Damage(n) => {
            frame::put_damage(report, n);
            Ok(Hushed {
                reported: true,
                link: f.link,
            })
        }
        Outcome::Quiet | Outcome::Frame => Ok(Hushed {
            reported: false,
            link: f.link,
        }),
    }
}

// The line fell silent.
#[tactic(auto, using(crate::proofs::Hushed::hush_beside, crate::proofs::Hushed::hush_line, crate::proofs::Hushed::hush_slots))]
pub fn silence(link: Link, slots: Slots, report: &mut [u8]) -> Result<Hushed, Refusal>
    ensures { Hushes link slots report.old (hushed_of link result) report.new }
{
    if report.len() != reports::SIZE {
        return Err(Refusal::AreaSize);
    }
    if !rebuild::sound(slots) {
        return Err(Refusal::UnfitState);
    }
    hush(link, report)
}

// Frees a slot; the link is as it was.
pub fn forget(link: Link, slots: Slots, s: u8) -> Result<Slots, Refusal>
    ensures { Frees link slots s (freed_of slots result) }
{
    if !rebuild::sound(slots) || !link.sound() {
        return Err(Refusal::UnfitState);
    }
    rebuild::forget(slots, s)
}
