ghost use Rattle.std.specs.Prelude.{◌≡◌, ◌+◌, ◌≤◌};
ghost use Rattle.mesh_reader.specs.Reading.{vertex_after};

use mesh_stream::event::Event;

// The numbers that the next line and the next vertex get. The definitions of reading take them apart, as the rules do.
#[derive(Clone, Copy)]
pub(crate) struct Numbers {
    pub line: u32,
    pub vertex: u32,
    ghost lines: { line ≤ 1000000001 },
    ghost vertices: { vertex ≤ line },
}

impl Numbers {
    // Past a line that holds this event.
    pub(crate) fn pass(&mut self, event: &Event)
        requires { self.old.line ≤ 1000000000 }
        ensures line { self.new.line ≡ self.old.line + 1 }
        ensures vertex { self.new.vertex ≡ vertex_after self.old.vertex event.now }
    {
        self.line += 1;
        if let Event::Vertex { .. } = event {
            self.vertex += 1;
        }
    }
}
