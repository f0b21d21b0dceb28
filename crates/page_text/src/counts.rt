// The counts of all pads: their sum and the largest, and those of a connector.
ghost use Rattle.std.specs.Prelude.{◌<◌, ◌≡◌, sum};
ghost use Rattle.page_text.specs.Text.{largest, count_of};

use crate::Counts;

// The counts of a connector's channels.
#[derive(Drop)]
pub(crate) struct Connector<'a> {
    pub counts: &'a Counts,
    pub number: usize,
    ghost in_range: { number < 4 },
}

impl Connector<'_> {
    pub(crate) fn count(&self, channel: usize) -> u32
        requires { channel < 64 }
        ensures { result ≡ count_of self.now.counts.now self.now.number channel }
    {
        self.counts[channel + 64 * self.number]
    }
}

// The sum of the counts: 256 numbers of 32 bits cannot wrap.
pub(crate) fn total(counts: &Counts) -> u64
    ensures { result ≡ sum counts.now }
{
    let mut hits = 0;
    for count in counts {
        hits += u64::from(*count);
    }
    hits
}

pub(crate) fn largest(counts: &Counts) -> u32
    ensures { result ≡ largest counts.now }
{
    counts.iter().fold(0, |most, count| most.max(*count))
}
