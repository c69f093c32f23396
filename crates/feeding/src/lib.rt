// The receiver over its octets where they stand: it eats a piece through the first octet that causes a report, else all of it.
// The stages follow one another: a state in an earlier one goes on to the next within the piece, and only a report leads back.
#![tactic(auto)]

ghost use Rattle.std.specs.Prelude.{◌≡◌, [], ◌∷◌, ◌+◌, ◌/◌, ◌%◌, ◌<◌, ◌≤◌, ltb, length};
ghost use Rattle.octets.specs.Choice.{pick};
ghost use Rattle.octets.specs.Splice.{splice};
ghost use Rattle.state.specs.Layout.{store_place, state_size};
ghost use Rattle.feeding.specs.Stages.{phase_octet, got_at, length_at, Ready, Sought, HeadLaid, HeadEnds, Fronts, DataLaid, FirstLaid, DataEnds, Ends, EatsAt};

use frames::Outcome;
use state::STORE;

// Stays: (d) `Ready area.old` is asked by each stage: what a stage lays breaks it until its end, where `Leaves` gives it back with all that stands behind, so a type that keeps it says no less.

// The octets eaten, and what the last of them ended.
#[derive(Clone, Copy)]
pub struct Ate {
    pub eaten: usize,
    pub outcome: Outcome,
}

// The piece is eaten so far, and nothing ended.
fn quiet(eaten: usize) -> Ate
    ensures { result ≡ record { eaten = eaten; outcome = Outcome.Quiet } }
{
    Ate {
        eaten,
        outcome: Outcome::Quiet,
    }
}

// Hunting and preamble: through the FF that leads to the header, else all of the piece.
fn seek(area: &mut [u8], piece: &[u8]) -> usize
    requires { Ready area.old × (phase_octet area.old < 3) }
    ensures { Sought area.old piece.now result area.new }
{
    let mut near = area[0];
    if 1 < near {
        return 0;
    }
    for (i, b) in piece.iter().enumerate() {
        if near == 1 && *b == 0xFF {
            area[0] = 2;
            return i + 1;
        }
        near = u8::from(*b == 0x55);
    }
    area[0] = near;
    piece.len()
}

// The header's five octets, as far as they are there; the place behind them.
fn lay_head(area: &mut [u8], piece: &[u8], from: usize) -> usize
    requires { Ready area.old × ((from ≤ length piece.now) × (phase_octet area.old ≡ 2)) }
    ensures { HeadLaid area.old piece.now from result area.new }
{
    let mut got = area[2];
    for i in from..piece.len() {
        if 5 <= got {
            area[2] = got;
            return i;
        }
        area[3 + usize::from(got)] = piece[i];
        got += 1;
    }
    area[2] = got;
    piece.len()
}

// The header's check octet b: damage 1, damage 2, a frame without data, or nothing and the data follow.
fn end_head(area: &mut [u8], b: u8) -> Outcome
    requires { Ready area.old × ((phase_octet area.old ≡ 2) × (got_at area.old ≡ 5)) }
    ensures { HeadEnds area.old b result area.new }
{
    let left = sums::header_step(sums::header_run(0xFF, &area[3..8]), b);
    let n = octets::pair(area[6], area[7]);
    area[2] = 0;
    area[0] = 0;
    if left != 0x55 {
        return Outcome::Damage(1);
    }
    if 501 < n {
        return Outcome::Damage(2);
    }
    if n == 0 {
        return Outcome::Frame;
    }
    area[0] = 3;
    Outcome::Quiet
}

// The header, if the state is in it.
fn eat_head(area: &mut [u8], piece: &[u8], from: usize) -> Ate
    requires { Ready area.old × ((from ≤ length piece.now) × ((phase_octet area.old < 3) × ((phase_octet area.old ≡ 2 → ⊥) → from ≡ length piece.now))) }
    ensures { Fronts area.old piece.now from result area.new }
{
    if area[0] != 2 {
        return quiet(from);
    }
    let i = lay_head(area, piece, from);
    if i == piece.len() {
        return quiet(i);
    }
    Ate {
        eaten: i + 1,
        outcome: end_head(area, piece[i]),
    }
}

// The count of data octets, high octet first.
fn set_got(area: &mut [u8], got: u16)
    requires { length area.old ≡ state_size }
    ensures { area.new ≡ splice area.old 1 (got / 256 ∷ got % 256 ∷ []) }
{
    let [high, low] = got.to_be_bytes();
    area[1] = high;
    area[2] = low;
}

// One data octet, the only one that is there.
fn lay_one(area: &mut [u8], got: u16, b: u8)
    requires { (length area.old ≡ state_size) × (got < 501) }
    ensures { area.new ≡ splice (splice area.old (store_place + got) (b ∷ [])) 1 ((got + 1) / 256 ∷ (got + 1) % 256 ∷ []) }
{
    area[STORE + usize::from(got)] = b;
    set_got(area, got + 1);
}

// A run of data octets.
fn lay_run(area: &mut [u8], got: u16, run: &[u8])
    requires { (length area.old ≡ state_size) × (got + length run.now ≤ 501) }
    ensures { area.new ≡ splice (splice area.old (store_place + got) run.now) 1 ((got + length run.now) / 256 ∷ (got + length run.now) % 256 ∷ []) }
{
    octets::copy(run, area, STORE + usize::from(got));
    set_got(area, got + (run.len() as u16));
}

// The lesser of two counts.
fn least(a: usize, b: usize) -> usize
    ensures { result ≡ pick (ltb a b) a b }
{
    if a < b { a } else { b }
}

// The data octets that are there and wanted, laid by one run; the place behind them.
fn lay_data(area: &mut [u8], piece: &[u8], from: usize) -> usize
    requires { Ready area.old × ((from ≤ length piece.now) × (phase_octet area.old ≡ 3)) }
    ensures { DataLaid area.old piece.now from result area.new }
{
    let n = octets::pair(area[6], area[7]);
    let got = octets::pair(area[1], area[2]);
    if n <= got {
        return from;
    }
    let there = piece.len() - from;
    if there == 1 {
        lay_one(area, got, piece[from]);
        return from + 1;
    }
    let to = from + least(there, usize::from(n - got));
    lay_run(area, got, &piece[from..to]);
    to
}

// The first check octet, if the data are whole and it is there.
fn lay_first(area: &mut [u8], piece: &[u8], from: usize) -> usize
    requires { Ready area.old × ((from ≤ length piece.now) × ((phase_octet area.old ≡ 3) × ((from ≡ length piece.now → ⊥) → length_at area.old ≤ got_at area.old))) }
    ensures { FirstLaid area.old piece.now from result area.new }
{
    if from == piece.len() {
        return from;
    }
    let n = octets::pair(area[6], area[7]);
    let got = octets::pair(area[1], area[2]);
    if got != n {
        return from;
    }
    area[8] = piece[from];
    set_got(area, n + 1);
    from + 1
}

// The second check octet b: a good frame or damage 3.
fn end_data(area: &mut [u8], b: u8) -> Outcome
    requires { Ready area.old × ((phase_octet area.old ≡ 3) × (got_at area.old ≡ length_at area.old + 1)) }
    ensures { DataEnds area.old b result area.new }
{
    let end = STORE + usize::from(octets::pair(area[6], area[7]));
    let reg = sums::data_run(0xFFFF, &area[STORE..end]);
    let left = sums::data_step(sums::data_step(reg, area[8]), b);
    area[0] = 0;
    area[1] = 0;
    area[2] = 0;
    if left == 0xF0B8 {
        return Outcome::Frame;
    }
    Outcome::Damage(3)
}

// The data and their check octets.
fn eat_data(area: &mut [u8], piece: &[u8], from: usize) -> Ate
    requires { Ready area.old × ((from ≤ length piece.now) × (phase_octet area.old ≡ 3)) }
    ensures { Ends area.old piece.now from result area.new }
{
    let i = lay_data(area, piece, from);
    let j = lay_first(area, piece, i);
    if j == piece.len() {
        return quiet(j);
    }
    Ate {
        eaten: j + 1,
        outcome: end_data(area, piece[j]),
    }
}

// What comes before the data, if the state is there.
fn eat_front(area: &mut [u8], piece: &[u8]) -> Ate
    requires { Ready area.old }
    ensures { Fronts area.old piece.now 0 result area.new }
{
    if area[0] == 3 {
        return quiet(0);
    }
    let i = seek(area, piece);
    eat_head(area, piece, i)
}

// All stages, from the one that the state is in.
pub fn eat(area: &mut [u8], piece: &[u8]) -> Ate
    requires { Ready area.old }
    ensures { EatsAt area.old piece.now result area.new }
{
    let h = eat_front(area, piece);
    if area[0] != 3 {
        return h;
    }
    eat_data(area, piece, h.eaten)
}
