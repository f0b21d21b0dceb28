// The tags of an event, of its packets and of their inner packets.
ghost use Rattle.std.specs.Prelude.{◌≡◌};

#[derive(Clone, Copy, Debug, PartialEq, Eq)]
pub enum Tag {
    Event = 0x5800,
    Trigger = 0x5801,
    TimeOfFlight = 0x5802,
    Timestamp = 0x5803,
    EventNumber = 0x5804,
    Scintillator = 0x5810,
    IonChamber = 0x5820,
    IonChamberEnergies = 0x5821,
    FocalPlaneTime = 0x5830,
    Crdc = 0x5840,
    CrdcSamples = 0x5841,
    CrdcAnode = 0x5845,
    IntermediateCrdc = 0x5850,
    TargetPin = 0x5860,
    IntermediateTrack = 0x5870,
    IntermediatePpac = 0x5880,
    ObjectScintillator = 0x5890,
    ObjectPin = 0x58a0,
    Hodoscope = 0x58b0,
    VmeAdc = 0x58c0,
}

impl Tag {
    ghost use Rattle.s800_format.specs.Tag.{number, tag_of};

    pub fn number(self) -> u32
        ensures { result ≡ number self }
    {
        self as u32
    }

    // The tag that a word is: none for most words. (Inlined, so that its match and that of its caller become one branch. An Option and no TryFrom, since a caller
    // refuses by a number of its own.)
    #[inline(always)]
    #[tactic(auto, unfolding(crate::specs::Tag::tag_of))]
    pub fn of(word: u32) -> Option<Tag>
        ensures { result ≡ tag_of word }
    {
        match word {
            0x5800 => Some(Tag::Event),
            0x5801 => Some(Tag::Trigger),
            0x5802 => Some(Tag::TimeOfFlight),
            0x5803 => Some(Tag::Timestamp),
            0x5804 => Some(Tag::EventNumber),
            0x5810 => Some(Tag::Scintillator),
            0x5820 => Some(Tag::IonChamber),
            0x5821 => Some(Tag::IonChamberEnergies),
            0x5830 => Some(Tag::FocalPlaneTime),
            0x5840 => Some(Tag::Crdc),
            0x5841 => Some(Tag::CrdcSamples),
            0x5845 => Some(Tag::CrdcAnode),
            0x5850 => Some(Tag::IntermediateCrdc),
            0x5860 => Some(Tag::TargetPin),
            0x5870 => Some(Tag::IntermediateTrack),
            0x5880 => Some(Tag::IntermediatePpac),
            0x5890 => Some(Tag::ObjectScintillator),
            0x58a0 => Some(Tag::ObjectPin),
            0x58b0 => Some(Tag::Hodoscope),
            0x58c0 => Some(Tag::VmeAdc),
            _ => None,
        }
    }
}
