// A set of channels as the bits of a number. A channel is taken modulo 32, so that any number may come in.
ghost use Rattle.std.specs.Prelude.{◌≡◌, ◌%◌};
ghost use Rattle.event.specs.Channels.{present, insert};

// The channel is in the set.
pub fn contains(set: u32, channel: u32) -> bool
    ensures { result ≡ present set (channel % 32) }
{
    (set >> (channel % 32)) % 2 == 1
}

// The set with the channel.
pub fn with_channel(set: u32, channel: u32) -> u32
    ensures { result ≡ insert set (channel % 32) }
{
    set | (1u32 << (channel % 32))
}
