use mesh_stream::fault::Refusal;
use mesh_stream::stage::Standing;

// What a pile may be told to do.
#[derive(Clone, Copy, PartialEq, Debug)]
pub enum Order<'a> {
    Feed(&'a [u8]),
    Close,
    Next,
}

// What it answers to each.
#[derive(Clone, Copy, PartialEq, Debug)]
pub enum Reply<I> {
    Fed(Result<usize, Refusal>),
    Closed(Result<(), Refusal>),
    Gave(Result<I, Standing>),
}
