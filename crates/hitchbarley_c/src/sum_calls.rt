// The two check sums.
ghost use Rattle.std.specs.Prelude.{◌≡◌};
ghost use Rattle.sums.specs.Sums.{header_run, header_check, data_run, data_sent};

use hitchbarley::sum_calls;

// The check octet of a header's octets, as it is sent.
#[unsafe(no_mangle)]
pub extern "C" fn hb_header_check(head: &[u8]) -> u8
    ensures { result ≡ header_check head.now }
{
    sum_calls::hb_header_check(head)
}

// The check of data octets, sent low octet first.
#[unsafe(no_mangle)]
pub extern "C" fn hb_data_check(payload: &[u8]) -> u16
    ensures { result ≡ data_sent payload.now }
{
    sum_calls::hb_data_check(payload)
}

// The header check's register after a part of the octets: FF at first, 55 after a good header and its check octet.
#[unsafe(no_mangle)]
pub extern "C" fn hb_header_run(register: u8, part: &[u8]) -> u8
    ensures { result ≡ header_run register part.now }
{
    sum_calls::hb_header_run(register, part)
}

// The data check's register after a part of the octets: FFFF at first, F0B8 after good data and its check octets.
#[unsafe(no_mangle)]
pub extern "C" fn hb_data_run(register: u16, part: &[u8]) -> u16
    ensures { result ≡ data_run register part.now }
{
    sum_calls::hb_data_run(register, part)
}
