// The check sums of Annex G.
ghost use Rattle.std.specs.Prelude.{◌≡◌};
ghost use Rattle.sums.specs.Sums.{header_run, header_check, data_run, data_sent};

// The check octet of a header's octets, as it is sent.
pub fn hb_header_check(head: &[u8]) -> u8
    ensures { result ≡ header_check head.now }
{
    sums::header_check(head)
}

// The check of data octets, sent low octet first.
pub fn hb_data_check(payload: &[u8]) -> u16
    ensures { result ≡ data_sent payload.now }
{
    sums::data_check(payload)
}

// The header check's register after a part of the octets: FF at first, 55 after a good header and its check octet.
pub fn hb_header_run(register: u8, part: &[u8]) -> u8
    ensures { result ≡ header_run register part.now }
{
    sums::header_run(register, part)
}

// The data check's register after a part of the octets: FFFF at first, F0B8 after good data and its check octets.
pub fn hb_data_run(register: u16, part: &[u8]) -> u16
    ensures { result ≡ data_run register part.now }
{
    sums::data_run(register, part)
}
