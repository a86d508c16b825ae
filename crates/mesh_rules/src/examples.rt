ghost use Rattle.mesh_rules.specs.Examples.{WorkedExamples};

// Short lists on which the rules can be seen, proved of the definitions. Nothing to run, only to prove.
pub fn worked_examples()
    ensures { WorkedExamples }
{}
