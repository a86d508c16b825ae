ghost use Rattle.mesh_rules.specs.RuleLaws.{Laws};

// What holds of every rewriting of an accepted list, and of every pile of them. Nothing to run, only to prove.
pub fn of_every_pile()
    ensures { Laws }
{}
