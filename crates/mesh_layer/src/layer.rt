use crate::filter::Filter;
use mesh_stream::fault::Fault;

mod below;
mod inlet;
mod stage;
mod start;

// A layer: a filter over the stage below it.
#[derive(Drop)]
pub struct Layer<S, F: Filter> {
    below: S,
    filter: F,
    // what is still to be handed over for the item taken last
    rest: F::Rest,
    // once it is at fault, it stays so
    fault: Option<Fault>,
}
