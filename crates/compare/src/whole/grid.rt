// The grid, by rows and columns.
use crate::memory::Made;
use mesh_pipe::{Event, Point};
use std::alloc::Global;

// The settings of a grid.
#[derive(Clone, Copy)]
struct Settings {
    columns: u32,
    rows: u32,
    step: u32,
}

impl Settings {
    fn is_allowed(&self) -> bool {
        let Settings {
            columns,
            rows,
            step,
        } = *self;
        let fits = |count: u32| count
            .wrapping_sub(1)
            .checked_mul(step)
            .is_some_and(|extent| extent <= 100_000);
        (2..=1000).contains(&columns)
            && (2..=50_000).contains(&rows)
            && step >= 1
            && fits(columns)
            && fits(rows)
    }

    fn vertex(&self, row: u32, column: u32) -> Event {
        Event::Vertex {
            place: 0,
            number: row
                .wrapping_mul(self.columns)
                .wrapping_add(column)
                .wrapping_add(1),
            at: Point {
                x: i32::try_from(column.wrapping_mul(self.step)).unwrap_or(0),
                y: i32::try_from(row.wrapping_mul(self.step)).unwrap_or(0),
                z: 0,
            },
        }
    }

    // The vertices that go once the square behind which vertex n stands is there.
    fn finalized(&self, row: u32, column: u32, [p, q, m, n]: [u32; 4]) -> [Option<u32>; 4] {
        let is_last_column = column.wrapping_add(1) == self.columns;
        let is_last_row = row.wrapping_add(1) == self.rows;
        [
            Some(p),
            is_last_column.then_some(q),
            is_last_row.then_some(m),
            (is_last_column && is_last_row).then_some(n),
        ]
    }

    // What follows vertex n where it closes a square.
    fn put_square(&self, row: u32, column: u32, events: &mut Vec<Event>) -> Made<()> {
        let m = row.wrapping_mul(self.columns).wrapping_add(column);
        let n = m.wrapping_add(1);
        let q = n.wrapping_sub(self.columns);
        let p = q.wrapping_sub(1);
        events.push(Event::Triangle {
            place: 0,
            a: p,
            b: q,
            c: n,
        })?;
        events.push(Event::Triangle {
            place: 0,
            a: p,
            b: n,
            c: m,
        })?;
        for vertex in self.finalized(row, column, [p, q, m, n]) {
            if let Some(vertex) = vertex {
                events.push(Event::Finalization { place: 0, vertex })?;
            }
        }
        Ok(())
    }
}

// All events of a grid, places aside, if its settings are allowed.
pub fn grid(alloc: Global, columns: u32, rows: u32, step: u32) -> Made<Option<Vec<Event>>> {
    let grid = Settings {
        columns,
        rows,
        step,
    };
    if !grid.is_allowed() {
        return Ok(None);
    }
    let mut events = Vec::new(alloc);
    for row in 0..rows {
        for column in 0..columns {
            events.push(grid.vertex(row, column))?;
            if row >= 1 && column >= 1 {
                grid.put_square(row, column, &mut events)?;
            }
        }
    }
    Ok(Some(events))
}
