// Lists of items, with what has to be asked for them.
use crate::answer::Ends;

// An item, and how many events of the bottom have to be asked for until it can come.
#[derive(Clone, Copy)]
pub struct Given<T> {
    pub item: T,
    pub asked: usize,
}

// All that a stage gives, how it then stands, and how many events of the bottom have to be asked for until it stands so.
#[derive(Drop)]
pub struct Listed<T> {
    pub items: Vec<Given<T>>,
    pub ends: Ends,
    pub asked: usize,
}
