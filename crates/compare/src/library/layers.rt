// Each layer, put on what is below and then on the heap.
use crate::library::heaped::Heaped;
use crate::memory::Made;
use mesh_pipe::{
    Border, Check, Clean, Clip, Compact, Event, Layer, Region, Renumber, Stage, border_list, check,
    clean, clip, compact, renumber,
};
use std::alloc::Global;

pub type Put<S, F> = Made<Heaped<Layer<S, F>>>;

pub fn put_check<S: Stage<Item = Event> + Drop>(alloc: Global, below: S) -> Put<S, Check> {
    Heaped::new(alloc, check(below))
}

pub fn put_clean<S: Stage<Item = Event> + Drop>(alloc: Global, below: S) -> Put<S, Clean> {
    Heaped::new(alloc, clean(below))
}

pub fn put_clip<S: Stage<Item = Event> + Drop, R: Region + Drop>(
    alloc: Global,
    below: S,
    region: R,
) -> Put<S, Clip<R>> {
    Heaped::new(alloc, clip(below, region))
}

pub fn put_compact<S: Stage<Item = Event> + Drop>(alloc: Global, below: S) -> Put<S, Compact> {
    Heaped::new(alloc, compact(below))
}

pub fn put_renumber<S: Stage<Item = Event> + Drop>(alloc: Global, below: S) -> Put<S, Renumber> {
    Heaped::new(alloc, renumber(below))
}

pub fn put_border<S: Stage<Item = Event> + Drop>(alloc: Global, below: S) -> Put<S, Border> {
    Heaped::new(alloc, border_list(below))
}
