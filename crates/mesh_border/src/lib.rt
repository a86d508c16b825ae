// The border list: a filter under a layer, whose items are border edges.
#![tactic(auto)]

pub mod border;
pub mod border_list;
mod found;
mod neighbours;
mod open_edges;

// How many vertices may be live at once. As many rows do for the neighbours, and as many places for the edges open at one vertex, since
// the other end of each is live too.
pub(crate) const LIVE_LIMIT: usize = 1024;
