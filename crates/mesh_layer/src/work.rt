ghost use Rattle.std.specs.Prelude.{◌≡◌};
ghost use Rattle.mesh_layer.specs.Layering.{seen};
ghost use Rattle.mesh_layer.specs.Orders.{Obeyed, WorkedOff, AskedOn};

use crate::order::{Order, Reply};
use mesh_stream::event::Event;
use mesh_stream::stage::{Inlet, Stage, Standing};

// Does what one order says.
fn obey<P: Inlet<Item = Event>>(pile: &mut P, order: Order) -> Reply<Event>
    ensures { Obeyed (seen P.Stage pile.old) order.entry result (seen P.Stage pile.new) }
{
    match order {
        Order::Feed(piece) => Reply::Fed(pile.feed(piece)),
        Order::Close => Reply::Closed(pile.close()),
        Order::Next => Reply::Gave(pile.next()),
    }
}

// Works off a list of orders on a pile, as many as the log has entries for, writes each reply into the log, and answers how many.
pub fn work_off<P: Inlet<Item = Event>>(
    pile: &mut P,
    orders: &[Order],
    log: &mut [Reply<Event>],
) -> usize
    ensures { WorkedOff (seen P.Stage pile.old) orders.now log.old result log.new (seen P.Stage pile.new) }
{
    let count = orders.len().min(log.len());
    for i in 0..count {
        log[i] = obey(pile, orders[i]);
    }
    count
}

// Asks a pile for its next item once for each entry of the log, and writes down what it answers: all that a pile can be told whose
// bottom takes no text.
pub fn ask_on<P: Stage<Item = Event>>(pile: &mut P, log: &mut [Result<Event, Standing>])
    ensures { AskedOn (seen P.Stage pile.old) log.old log.new (seen P.Stage pile.new) }
{
    for i in 0..log.len() {
        log[i] = pile.next();
    }
}
