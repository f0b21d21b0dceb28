// The check of host in C's calling convention, as a static library. include/s800.h declares it.
#![tactic(auto)]

ghost use Rattle.std.specs.Prelude.{◌≡◌};
ghost use Rattle.host.specs.Check.{host_answer};

// The rows of the event in these bytes, low byte first, or 2^32 times a refusal number plus its place. Any bytes and any order may come in.
#[unsafe(no_mangle)]
pub extern "C" fn s800_check(bytes: &[u8], order: u32) -> u64
    ensures { result ≡ host_answer bytes.now order }
{
    host::s800_check(bytes, order)
}
