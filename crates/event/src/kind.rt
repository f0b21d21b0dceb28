// The kinds of row: those of dialect S from 1 on, those of dialect F from 16 on, those of dialect R from 32 on. (A row of a lent buffer may have any number as its
// kind, so that a field of a row is no `Kind`.)
ghost use Rattle.std.specs.Prelude.{◌≡◌};

#[derive(Clone, Copy, Debug, PartialEq, Eq)]
pub enum Kind {
    Packet = 1,
    Stamp = 2,
    EventNumber = 3,
    TriggerPattern = 4,
    Time = 5,
    Energy = 6,
    Threshold = 7,
    SampleHead = 8,
    Anode = 9,
    HodoscopeHits = 10,
    OpaqueWord = 11,
    SampleDatum = 12,
    FStamp = 16,
    ScalerBlock = 17,
    Scaler = 18,
    PatternUnit = 19,
    EmptyModule = 20,
    Module = 21,
    Value = 22,
    Region = 32,
    RegionWord = 33,
    RegionScaler = 34,
    VdcModule = 35,
    VdcDatum = 36,
}

impl Kind {
    ghost use Rattle.event.specs.Kind.{number};

    pub fn number(self) -> u32
        ensures { result ≡ number self }
    {
        self as u32
    }
}
