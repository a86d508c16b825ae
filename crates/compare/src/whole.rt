// The second implementation: every rule over the whole list, with no windows, and with nothing of the library's but the event type.
pub mod acceptance;
pub mod answers;
pub mod border;
pub mod bottom;
pub mod given;
pub mod grid;
pub mod layer;
pub mod region;
pub mod report;
pub mod text;
