// The receiver by value: fed until all is eaten.
use crate::print;
use frames::{Fed, Outcome, Receiver};

fn good(rt: &impl Print, n: usize, store: &[u8; 501]) {
    print::named(rt, b" good ", n);
    print::end(rt);
    print::area(rt, b"  data", show::part(store, 0, n));
}

fn damage(rt: &impl Print, d: u8) {
    print::named(rt, b" damage ", usize::from(d));
    print::end(rt);
}

// What is told of what the last octet eaten ended: of a frame the data length that the header has, and the store.
fn told(rt: &impl Print, o: Outcome, r: &Receiver) {
    match o {
        Outcome::Quiet => show::text(rt, b" quiet\n"),
        Outcome::Frame => good(rt, usize::from(frames::length_of(r.link.head)), &r.store),
        Outcome::Damage(d) => damage(rt, d),
    }
}

// One call.
fn turn(rt: &impl Print, r: Receiver, rest: &[u8]) -> Fed {
    let (number, f) = match r.feed(rest) {
        Ok(f) => (0, f),
        Err(e) => (e.number(), unfed(r)),
    };
    print::start(rt, number);
    print::named(rt, b" eaten ", f.eaten);
    told(rt, f.outcome, &f.receiver);
    f
}

// Of a piece that is refused nothing is eaten.
fn unfed(receiver: Receiver) -> Fed {
    Fed {
        eaten: 0,
        outcome: Outcome::Quiet,
        receiver,
    }
}

pub fn all(rt: &impl Print, s: &[u8]) {
    let mut r = Receiver::fresh();
    let mut rest = s;
    for _ in 0..s.len() {
        if rest.is_empty() {
            break;
        }
        let f = turn(rt, r, rest);
        r = f.receiver;
        rest = rest.get(f.eaten..).unwrap_or(b"");
    }
}
