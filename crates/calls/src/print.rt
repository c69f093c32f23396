// What is printed of an answer: its numbers, and each area whole.
pub fn number(rt: &impl Print, n: usize) {
    let _ = rt.print(n);
}

// The answer.
pub fn start(rt: &impl Print, r: u8) {
    show::text(rt, b"  ");
    number(rt, usize::from(r));
}

// A number behind its name.
pub fn named(rt: &impl Print, name: &[u8], n: usize) {
    show::text(rt, name);
    number(rt, n);
}

pub fn end(rt: &impl Print) {
    show::text(rt, b"\n");
}

// The word for so many times the octet.
fn word(rt: &impl Print, x: u8, n: usize) {
    show::text(rt, b" ");
    show::octet(rt, x);
    if 1 < n {
        show::text(rt, b"*");
        number(rt, n);
    }
}

// Equal octets: one word where they are five or more, or a word each.
fn run(rt: &impl Print, s: &[u8]) {
    if let [x, _, _, _, _, ..] = s {
        word(rt, *x, s.len());
    } else {
        for x in s {
            word(rt, *x, 1);
        }
    }
}

// An area's name and its octets.
pub fn area(rt: &impl Print, name: &[u8], s: &[u8]) {
    show::text(rt, name);
    for equal in s.chunk_by(|x, y| x == y) {
        run(rt, equal);
    }
    end(rt);
}
