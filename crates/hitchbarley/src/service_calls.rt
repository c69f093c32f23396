// Services read into records of octets, and written from them.
ghost use Rattle.services.specs.Reading.{read_service};
ghost use Rattle.service_writer.specs.Layout.{octets_of};
ghost use Rattle.records.specs.Service.{service_at};
ghost use Rattle.hitchbarley.specs.Answers.{Fills, Writes};
ghost use Rattle.hitchbarley.specs.Services.{service_good, service_number, service_octets, service_fault};

use crate::answers;
use octets::Refusal;

// The parameters of a PDU of this type and choice, as a record of 26: 0, 60, 30 to 39, 43 or 40 to 42.
pub fn hb_service_read(kind: u8, choice: u8, params: &[u8], fields: &mut [u8]) -> u8
    ensures { Fills 26 (service_good (read_service kind choice params.now)) (service_number (read_service kind choice params.now)) (service_octets (read_service kind choice params.now)) fields.old result fields.new }
{
    if fields.len() != 26 {
        return Refusal::AreaSize.number();
    }
    match services::read(kind, choice, params) {
        Ok(v) => {
            records::service::put(v, fields);
            0
        }
        Err(r) => r.number(),
    }
}

// The parameters of the service that a record is, with the value's octets: 0, 60, 43, 41, else the number that reading the output gives, or 61; and
// how many were written.
pub fn hb_service_write(fields: &[u8], value: &[u8], out: &mut [u8], wrote: &mut usize) -> u8
    ensures { Writes (service_fault fields.now value.now) (octets_of (service_at fields.now) value.now) out.old result wrote.new out.new }
{
    *wrote = 0;
    if fields.len() != 26 {
        return Refusal::AreaSize.number();
    }
    if 5 < fields[0] {
        return Refusal::UnknownChoice.number();
    }
    let v = records::service::get(fields);
    answers::written(service_writer::write(v, value, out), wrote)
}
