ghost use Rattle.std.specs.Prelude.{◌≡◌};
ghost use Rattle.mesh_layer.specs.Faults.{or_fault};

use mesh_stream::event::Event;
use mesh_stream::fault::{Cause, Fault, LayerName};

// What a filter makes of an event that it judges so, or the fault of its layer.
pub fn or_fault<T>(judged: Result<T, Cause>, layer: LayerName, event: Event) -> Result<T, Fault>
    ensures { result ≡ or_fault judged layer event }
{
    judged.map_err(|cause| Fault {
        layer,
        cause,
        place: event.place(),
    })
}
