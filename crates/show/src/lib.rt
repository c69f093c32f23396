// What the programs print: text, numbers and octets on standard output; and parts of octets.
#![tactic(auto)]

static DIGITS: [u8; 16] = *b"0123456789ABCDEF";

// Text to standard output; an output that takes no more is passed over.
pub fn text(rt: &impl Print, s: &[u8]) {
    let _ = rt.write_all(s);
}

// An octet as two hexadecimal digits.
pub fn octet(rt: &impl Print, x: u8) {
    text(
        rt,
        &[DIGITS[usize::from(x / 16)], DIGITS[usize::from(x % 16)]],
    );
}

// The octets from one place to another; none where there are no such.
pub fn part(s: &[u8], from: usize, to: usize) -> &[u8] {
    s.get(from..to).unwrap_or(&[])
}
