// The library's answers, in the words of the comparison.
use crate::answer::{Answer, Counts, Ends, Item, Side};
use mesh_pipe::{Edge, Event, Fault, Standing, Totals};

impl From<Event> for Item {
    fn from(event: Event) -> Item {
        Item::Event(event)
    }
}

impl From<Edge> for Item {
    fn from(edge: Edge) -> Item {
        let Edge { from, to, place } = edge;
        Item::Side(Side { from, to, place })
    }
}

impl From<Standing> for Ends {
    fn from(standing: Standing) -> Ends {
        match standing {
            Standing::Waiting => Ends::Waiting,
            Standing::Ended => Ends::Ended,
            Standing::Faulty(
                Fault {
                    layer,
                    cause,
                    place,
                },
            ) => Ends::Faulty {
                layer: layer.word(),
                cause: cause.number(),
                place,
            },
        }
    }
}

impl From<Totals> for Counts {
    fn from(totals: Totals) -> Counts {
        Counts {
            vertices: totals.vertices,
            triangles: totals.triangles,
            finalized: totals.finalized,
            width: totals.width,
            area: totals.area,
        }
    }
}
