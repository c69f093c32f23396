// Headers read into records of octets, and written from them.
ghost use Rattle.std.specs.Prelude.{eqb};
ghost use Rattle.npdu.specs.Reading.{read_npdu};
ghost use Rattle.npdu.specs.Layout.{encode};
ghost use Rattle.apdu.specs.Reading.{read_apdu};
ghost use Rattle.apdu.specs.Layout.{header};
ghost use Rattle.records.specs.Network.{npdu_record, npdu_at};
ghost use Rattle.records.specs.Application.{apdu_at};
ghost use Rattle.state.specs.Edition.{edition_of};
ghost use Rattle.hitchbarley.specs.Answers.{FillsTo, Writes};
ghost use Rattle.hitchbarley.specs.Headers.{apdu_good, apdu_number, apdu_octets, apdu_params, npdu_fault, apdu_fault};

use crate::answers;
use octets::Refusal;

// The network header at the front of these octets, as a record of 29: 0, 60 or 10 to 14; and the place after it.
pub fn hb_npdu_read(octets: &[u8], fields: &mut [u8], next: &mut usize) -> u8
    ensures { FillsTo 29 (eqb (read_npdu octets.now).refused 0) (read_npdu octets.now).refused (npdu_record (read_npdu octets.now).head) (read_npdu octets.now).next fields.old result next.new fields.new }
{
    *next = 0;
    if fields.len() != 29 {
        return Refusal::AreaSize.number();
    }
    match npdu::read(octets) {
        Ok(h) => {
            records::network::put(h.npdu, fields);
            *next = h.next;
            0
        }
        Err(r) => r.number(),
    }
}

// The octets of a network header: 0, 60, 12 to 14 or 61; and how many were written.
pub fn hb_npdu_write(fields: &[u8], out: &mut [u8], wrote: &mut usize) -> u8
    ensures { Writes (npdu_fault fields.now) (encode (npdu_at fields.now)) out.old result wrote.new out.new }
{
    *wrote = 0;
    if fields.len() != 29 {
        return Refusal::AreaSize.number();
    }
    let h = records::network::get(fields);
    answers::written(npdu::write(h, out), wrote)
}

// The header of an APDU, read by the edition that `later` says, as a record of 13: 0, 60 or 20 to 24; and the place where its parameters begin.
pub fn hb_apdu_read(octets: &[u8], later: u8, fields: &mut [u8], next: &mut usize) -> u8
    ensures { FillsTo 13 (apdu_good (read_apdu (edition_of later) octets.now)) (apdu_number (read_apdu (edition_of later) octets.now)) (apdu_octets (read_apdu (edition_of later) octets.now)) (apdu_params (read_apdu (edition_of later) octets.now)) fields.old result next.new fields.new }
{
    *next = 0;
    if fields.len() != 13 {
        return Refusal::AreaSize.number();
    }
    match apdu::read(state::edition_of(later), octets) {
        Ok(p) => {
            records::application::put(p, fields);
            *next = apdu::fields::params_at(p);
            0
        }
        Err(r) => r.number(),
    }
}

// The octets of an APDU's header in the edition that `later` says: 0, 60, 21 to 23 or 61; and how many were written.
pub fn hb_apdu_write(fields: &[u8], later: u8, out: &mut [u8], wrote: &mut usize) -> u8
    ensures { Writes (apdu_fault (edition_of later) fields.now) (header (apdu_at fields.now)) out.old result wrote.new out.new }
{
    *wrote = 0;
    if fields.len() != 13 {
        return Refusal::AreaSize.number();
    }
    if 7 < fields[0] {
        return Refusal::ApduType.number();
    }
    let p = records::application::get(fields);
    let edition = state::edition_of(later);
    answers::written(apdu_writer::write(edition, p, out), wrote)
}
