// Makes the exported calls that the lines of a text name, and prints every answer and every area whole.
//
//     NAME numbers.. [/ OCTETS [/ OCTETS]]
//
// Octets are hexadecimal, XX*N is N times one; an area that is lent for output is full of EE. A line that is empty or begins with # is a heading,
// and every line ends in a line feed.
#![tactic(auto)]

mod areas;
mod asked;
mod checks;
mod one_trunk;
mod print;
mod receiver;
mod text;
mod writers;

ghost use Rattle.std.specs.Prelude.{◌≤◌, length};

use areas::OUTPUT;
use one_trunk::Trunk;
use std::io::Read;
use text::Line;

// What the line gives.
fn answer(rt: &impl Print, line: Line, trunk: &mut Trunk) {
    let name = line.name();
    if let Some(call) = asked::Call::named(name) {
        call.line(rt, line);
    } else if let Some(call) = checks::Call::named(name) {
        call.line(rt, line);
    } else if let Some(call) = one_trunk::Call::named(name) {
        trunk.line(rt, call, line);
    } else if let Some(call) = writers::Call::named(name) {
        call.line(rt, line);
    } else {
        show::text(rt, b"  ?\n");
    }
}

// The line, and what it gives; nothing where it is a heading.
fn line(rt: &impl Print, s: &[u8], trunk: &mut Trunk) {
    show::text(rt, s);
    print::end(rt);
    match s {
        [] | [b'#', ..] => {}
        _ => answer(rt, Line { text: s }, trunk),
    }
}

// What came of the next line so far, and the trunk that the lines are about.
#[derive(Drop)]
struct Reading<'a> {
    held: [u8; 65536],
    len: usize,
    trunk: Trunk<'a>,
}

impl Reading<'_> {
    // One more octet: a line's end, or an octet of it, as far as there is room.
    fn octet(&mut self, rt: &impl Print, x: u8) {
        if x == b'\n' {
            line(rt, show::part(&self.held, 0, self.len), &mut self.trunk);
            self.len = 0;
        } else if self.len < 65536 {
            self.held[self.len] = x;
            self.len += 1;
        }
    }

    // One read.
    fn read<R: Read>(&mut self, rt: &impl Print, input: &mut R) {
        let mut piece = [0u8; 65536];
        let n = full(input, &mut piece);
        for x in &piece[..n] {
            self.octet(rt, *x);
        }
    }
}

// What is read into an area until it is full or no more comes; how much that is.
fn full<R: Read>(input: &mut R, buf: &mut [u8]) -> usize
    ensures { result ≤ length buf.new }
{
    let mut done = 0;
    // Stays: (d) each turn goes on by as much as was read, and no index counts the turns.
    while done < buf.len() {
        match input.read(&mut buf[done..]) {
            Ok(0) | Err(_) => return done,
            Ok(n) => done += n,
        }
    }
    done
}

// The text, up to 4 MiB.
fn main(rt: HostRuntime) {
    let mut state = [0; 700];
    let mut message = [0; OUTPUT];
    let mut reading = Reading {
        held: [0; 65536],
        len: 0,
        trunk: Trunk::new(&mut state, &mut message),
    };
    let mut input = rt.reader();
    for _ in 0..64 {
        reading.read(&rt, &mut input);
    }
}
