// Lists each hexadecimal line of standard input (document 01, 'The hexadecimal lines'), with the default stamp order.
#![tactic(auto)]

ghost use Rattle.std.specs.Prelude.{◌≡◌, take};
ghost use Rattle.event.specs.Outcome.{default_order};
ghost use Rattle.list_input.specs.Turns.{ListedByTurns};

use event::StampOrder;
use list_input::{BUFFER, Buffers, Ended, LineBuffers, MOST_ELEMENTS, MOST_LONGWORDS, MOST_WORDS};
use std::io::{Stdin, Stdout};

// Lists in the default stamp order: no order is given to this program.
fn list(stdin: Stdin, stdout: Stdout, order: StampOrder, buffers: &mut Buffers) -> Ended
    requires { order ≡ default_order }
    ensures { (result.order ≡ default_order) × ListedByTurns default_order result.whole (take result.put buffers.new.text) }
{
    list_input::list(stdin, stdout, order, buffers)
}

fn main(rt: HostRuntime) {
    let mut buffers = Buffers {
        input: [0; BUFFER],
        line: LineBuffers {
            words: [0; MOST_WORDS],
            longwords: [0; MOST_LONGWORDS],
            rows: [0; MOST_ELEMENTS],
        },
        text: [0; BUFFER],
    };
    list(rt.stdin(), rt.stdout(), StampOrder::default(), &mut buffers);
}
