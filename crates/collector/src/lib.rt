// The whole box: edition, receiver and four slots by value; feed, silence, forget; reports of 16 octets.
#![tactic(auto)]

pub mod frame;
pub mod heard;
pub mod lent;

ghost use Rattle.std.specs.Prelude.{◌≡◌};
ghost use Rattle.collector.specs.Answers.{fed_of, fell_of, forgot_of};
ghost use Rattle.collector.specs.Calls.{fresh_collector, Feeds, Stills, Forgets};

use apdu::Edition;
use frames::Receiver;
use octets::Refusal;
use rebuild::Slots;

// The state that one trunk has; the edition is the one that it began with.
#[derive(Clone, Copy)]
pub struct Collector {
    pub edition: Edition,
    pub receiver: Receiver,
    pub slots: Slots,
}

// The answer to a piece: the octets eaten; whether a report was written.
#[derive(Clone, Copy)]
pub struct Fed {
    pub eaten: usize,
    pub reported: bool,
    pub state: Collector,
}

// The answer to a silence.
#[derive(Clone, Copy)]
pub struct Fell {
    pub reported: bool,
    pub state: Collector,
}

impl Collector {
    // A fresh receiver and four free slots, for an edition.
    pub fn fresh(edition: Edition) -> Collector
        ensures { result ≡ fresh_collector edition }
    {
        Collector {
            edition,
            receiver: Receiver::FRESH,
            slots: Slots::FREE,
        }
    }

    // Eats octets through the first that causes a report, else all; 60 or 59 eats nothing and changes nothing.
    #[tactic(auto, using(crate::proofs::Eaten::feeds_unfed, crate::proofs::Eaten::feeds_fed))]
    pub fn feed(self, piece: &[u8], report: &mut [u8], area: &mut [u8]) -> Result<Fed, Refusal>
        ensures { Feeds self report.old area.old piece.now (fed_of self result) report.new area.new }
    {
        let mut store = self.receiver.store;
        let f = lent::feed(
            self.edition,
            self.receiver.link,
            self.slots,
            &mut store,
            piece,
            report,
            area,
        )?;
        Ok(Fed {
            eaten: f.eaten,
            reported: f.reported,
            state: Collector {
                receiver: Receiver {
                    link: f.link,
                    store,
                },
                slots: f.slots,
                ..self
            },
        })
    }

    // The line fell silent.
    pub fn silence(self, report: &mut [u8]) -> Result<Fell, Refusal>
        ensures { Stills self report.old (fell_of self result) report.new }
    {
        let f = lent::silence(self.receiver.link, self.slots, report)?;
        Ok(Fell {
            reported: f.reported,
            state: Collector {
                receiver: Receiver {
                    link: f.link,
                    ..self.receiver
                },
                ..self
            },
        })
    }

    // Frees a slot: 59, then 56.
    pub fn forget(self, s: u8) -> Result<Collector, Refusal>
        ensures { Forgets self s (forgot_of self result) }
    {
        Ok(Collector {
            slots: lent::forget(self.receiver.link, self.slots, s)?,
            ..self
        })
    }
}
