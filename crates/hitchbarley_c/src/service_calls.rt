// Services, read and written.
ghost use Rattle.services.specs.Reading.{read_service};
ghost use Rattle.service_writer.specs.Layout.{octets_of};
ghost use Rattle.records.specs.Service.{service_at};
ghost use Rattle.hitchbarley.specs.Answers.{Fills, Writes};
ghost use Rattle.hitchbarley.specs.Services.{service_good, service_number, service_octets, service_fault};

use hitchbarley::service_calls;

// The parameters of a PDU of this type and choice, as a record of 26: 0, 60, 30 to 39, 43 or 40 to 42.
#[unsafe(no_mangle)]
pub extern "C" fn hb_service_read(kind: u8, choice: u8, params: &[u8], fields: &mut [u8]) -> u8
    ensures { Fills 26 (service_good (read_service kind choice params.now)) (service_number (read_service kind choice params.now)) (service_octets (read_service kind choice params.now)) fields.old result fields.new }
{
    service_calls::hb_service_read(kind, choice, params, fields)
}

// The parameters of the service that a record is, with the value's octets: 0, 60, 43, 41, else the number that reading the output gives, or 61; and
// how many were written.
#[unsafe(no_mangle)]
pub extern "C" fn hb_service_write(
    fields: &[u8],
    value: &[u8],
    out: &mut [u8],
    wrote: &mut usize,
) -> u8
    ensures { Writes (service_fault fields.now value.now) (octets_of (service_at fields.now) value.now) out.old result wrote.new out.new }
{
    service_calls::hb_service_write(fields, value, out, wrote)
}
