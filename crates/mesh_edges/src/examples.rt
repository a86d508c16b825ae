ghost use Rattle.mesh_edges.specs.Examples.{WorkedExamples};

// Short lists and their border lists, proved of the definition. Nothing to run, only to prove.
pub fn worked_examples()
    ensures { WorkedExamples }
{}
