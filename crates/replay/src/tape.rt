// The file: read piece by piece, a record's octets held over where a read ends within it. Behind a refused record it is read to its end and not replayed;
// its end is no silence.
ghost use Rattle.std.specs.Prelude.{◌+◌, ◌≤◌, length, IfOk};

use crate::player::Player;
use apdu::Edition;
use listening::output::Output;
use std::io;
use std::io::Read;

// One read behind the octets that are held over.
fn read<R: Read>(input: &mut R, held: usize, buf: &mut [u8]) -> io::Result<usize>
    requires { held ≤ length buf.old }
    ensures { IfOk result (λ n. held + n ≤ length buf.old) }
{
    input.read(&mut buf[held..])
}

// What is read is replayed, and what was told of a piece is written out with it. How many octets of a record are held over at the file's end: none
// where nothing more can be written, or where a read fails, which is said.
fn all<R: Read>(
    rt: &(impl Print + Eprint),
    player: &mut Player,
    input: &mut R,
    buf: &mut [u8; 65536],
) -> usize {
    let mut held = 0;
    for _ in 0..u64::MAX {
        let n = match read(input, held, buf) {
            Ok(0) => return held,
            Ok(n) => held + n,
            Err(e) => {
                let _ = eprintln!(rt; "replay: reading: {e}");
                return 0;
            }
        };
        held = n % playback::SIZE;
        player.piece(rt, &buf[..n - held]);
        buf.copy_within(n - held..n, 0);
        player.out.flush(rt);
        if player.out.stopped() {
            return 0;
        }
    }
    held
}

// The octets behind the last whole record: how many and which.
fn odd(rt: &(impl Print + Eprint), octets: &[u8], out: &mut Output) {
    let mut pen = out.pen();
    let s = if octets.len() == 1 { "" } else { "s" };
    write!(pen, "end: {} odd octet{s}:", octets.len());
    values::long::row(&mut pen, octets);
    pen.one(b'\n');
    let at = pen.at();
    out.keep(at);
    out.flush(rt);
}

// Replays an open file by an edition.
pub fn replay<R: Read>(rt: &(impl Print + Eprint), edition: Edition, input: &mut R) {
    let mut buf = [0u8; 65536];
    let mut player = Player::new(edition);
    let held = all(rt, &mut player, input, &mut buf);
    if held != 0 {
        odd(rt, show::part(&buf, 0, held), &mut player.out);
    }
}
