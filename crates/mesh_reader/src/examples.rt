ghost use Rattle.mesh_reader.specs.Examples.{WorkedExamples};

// The worked examples of docs/TEXT.md, proved of the definition that a new reader means: nothing to run, only to prove.
pub fn worked_examples()
    ensures { WorkedExamples }
{}
