ghost use Rattle.mesh_windows.specs.WholeMesh.{WholeMesh};

// That each layer's machine, from the first event on, gives what the layer's rule makes of the whole list. Nothing to run, only to prove.
pub fn of_every_layer()
    ensures { WholeMesh }
{}
