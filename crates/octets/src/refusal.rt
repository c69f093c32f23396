// Why a call refuses: document 01's numbers, each with its row's word.
ghost use Rattle.std.specs.Prelude.{◌≡◌};
ghost use Rattle.octets.specs.Refusal.{number_of, fault_of};

// The rows of document 01 under "Refusals", and those of document 02 from 63 on. As a number each is its row's.
#[derive(Clone, Copy, Debug, PartialEq, Eq)]
pub enum Refusal {
    // The network header.
    NpduEndsEarly = 10,
    NpduVersion = 11,
    NpduReserved = 12,
    AddressLength = 13,
    NetworkNumber = 14,
    // The APDU header.
    ApduEndsEarly = 20,
    ApduType = 21,
    ApduReserved = 22,
    SizeOrWindow = 23,
    ApduLeftOver = 24,
    // Tag items.
    ItemEndsEarly = 30,
    TagNumber = 31,
    NotShortest = 32,
    ContentsLength = 33,
    ContentsRule = 34,
    StrayClosing = 35,
    GroupLeftOpen = 36,
    TooDeep = 37,
    TooManyItems = 38,
    TooManyOctets = 39,
    // Services.
    ParameterMissing = 40,
    ParameterRange = 41,
    ItemAfterLast = 42,
    UnknownChoice = 43,
    // Rebuilding.
    NoSlotFree = 50,
    NotBegun = 51,
    OutOfOrder = 52,
    OtherChoice = 53,
    MessageTooLong = 54,
    SlotNotOpen = 56,
    // What is lent.
    UnfitState = 59,
    AreaSize = 60,
    TooSmall = 61,
    NoReading = 62,
    // Writing and cutting.
    TooManySegments = 63,
    OutOfRange = 64,
    // Recorded trunks.
    BadRecord = 67,
    OddRecords = 68,
}

impl Refusal {
    // Its row's number.
    pub fn number(self) -> u8
        ensures { result ≡ number_of self }
    {
        self as u8
    }
}

// The number by which an answer refuses, 0 where it is good.
pub fn fault(answer: Result<(), Refusal>) -> u8
    ensures { result ≡ fault_of answer }
{
    match answer {
        Ok(()) => 0,
        Err(r) => r.number(),
    }
}
