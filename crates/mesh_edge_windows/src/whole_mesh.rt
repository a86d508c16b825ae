ghost use Rattle.mesh_edge_windows.specs.WholeMesh.{WholeMesh};

// That the border list's machine, from the first event on, gives the border list of the whole mesh. Nothing to run, only to prove.
pub fn of_the_border_list()
    ensures { WholeMesh }
{}
