use std::alloc::AllocError;

// What takes memory to make, unless none is left.
pub type Made<T> = Result<T, AllocError>;
