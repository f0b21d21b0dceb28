// A refusal: a fault and a place. The faults' numbers are of a reading 1 to 13, of a writing 20 to 24, of a comparison 25, of a page 26 to 28, of a hexadecimal
// line 30 and 24, of a host's call 31.
ghost use Rattle.std.specs.Prelude.{◌≡◌, Err};
ghost use Rattle.event.specs.Refusal.{number, refusal};

#[derive(Clone, Copy, Debug, PartialEq, Eq)]
pub enum Fault {
    // The event has too few or too many words; in a host's call also an odd number of bytes.
    Size = 1,
    // S: word 0 is not the event's length.
    EventLength = 2,
    // S: word 1 is not 0x5800.
    EventTag = 3,
    // S: word 2 is not version 5.
    Version = 4,
    // A packet's length is below 2 or above what remains; an F block or an R region does not fit.
    Extent = 5,
    // S: a tag unknown or not allowed there; F: not a header allowed there; R: an id not allowed there, or no region 15.
    Tag = 6,
    // A length that its tag, or its hodoscope id, does not allow; R: a size that its id does not allow.
    Length = 7,
    // An id that is not allowed.
    Id = 8,
    // A wrong inner length or tag; a wrong F footer.
    Inner = 9,
    // A data word that breaks its layout.
    Data = 10,
    // A channel twice in a packet or module, or a GEO twice.
    Repeated = 11,
    // More rows than room.
    Room = 12,
    // R: the sum of all words is not 0 modulo 65,536.
    Sum = 13,
    // The element count is not a multiple of four.
    Elements = 20,
    // A kind, or the tag of a row of kind 1, that may not stand there; the rows end too early.
    Kind = 21,
    // A field out of its range, or not the number it must be, or a repeated channel or GEO.
    Field = 22,
    // More words than the dialect's largest event.
    Large = 23,
    // More words than room.
    Words = 24,
    // The word list of a comparison, or else its row list, does not fit its room.
    List = 25,
    // An event with more words than a page takes.
    LongEvent = 26,
    // A page has no event to drop, or no event of that index to read.
    NoEvent = 27,
    // The room lent for a page is too small, or the page is said to hold too many events, or one with too many words.
    Page = 28,
    // Not a hexadecimal line, or one that is too long.
    Line = 30,
    // A stamp order that is neither 0 (crossed) nor 1 (rising).
    Order = 31,
}

// Why an event, or a part of one, is refused, and where: the place of the word or the row, or the items needed where there is no room for them.
#[derive(Clone, Copy, Debug, PartialEq, Eq)]
pub struct Refusal {
    pub fault: Fault,
    pub place: usize,
}

// What is refused by this fault at this place.
pub fn refuse<T>(fault: Fault, place: usize) -> Result<T, Refusal>
    ensures { result ≡ Err (refusal (number fault) place) }
{
    Err(Refusal { fault, place })
}
