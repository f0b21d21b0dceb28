// Lists as list_events does, with the crossed stamp order, whatever the default is: the archive's reprocessing keeps its rows (document 02, #105).
#![tactic(auto)]

ghost use Rattle.std.specs.Prelude.{◌≡◌, take};
ghost use Rattle.event.specs.declared.StampOrder.TheVariants.{Crossed};
ghost use Rattle.list_input.specs.Turns.{ListedByTurns};

use event::StampOrder;
use list_input::{BUFFER, Buffers, Ended, LineBuffers, MOST_ELEMENTS, MOST_LONGWORDS, MOST_WORDS};
use std::io::{Stdin, Stdout};

// Lists in the crossed stamp order.
fn list(stdin: Stdin, stdout: Stdout, order: StampOrder, buffers: &mut Buffers) -> Ended
    requires { order ≡ Crossed }
    ensures { (result.order ≡ Crossed) × ListedByTurns Crossed result.whole (take result.put buffers.new.text) }
{
    list_input::list(stdin, stdout, order, buffers)
}

fn main(rt: HostRuntime) {
    let mut buffers = Buffers {
        input: [0; BUFFER],
        line: LineBuffers {
            words: [0; MOST_WORDS],
            longwords: [0; MOST_LONGWORDS],
            rows: [0; MOST_ELEMENTS],
        },
        text: [0; BUFFER],
    };
    list(rt.stdin(), rt.stdout(), StampOrder::Crossed, &mut buffers);
}
