ghost use Rattle.std.specs.Prelude.{List};
ghost use Rattle.mesh_stream.specs.Runs.{View, viewed, Call, Run, Left};

use crate::stage::Stage;

// What every list of calls on this stage leaves, whatever their order and number, refused ones among them: what was handed over
// and what is left are together what the stage meant of the bytes taken. So it does not matter in which pieces a text is fed,
// or what is asked between. Nothing to run, only to prove.
pub fn every_run<S: Stage>(stage: &S)
    ensures { (cs : List (Call S.Item)) (w : View S.Item) → Run (viewed (S.Stage.port stage.now) (S.Stage.meaning stage.now) (S.Stage.lawful stage.now)) cs w → Left (S.Stage.meaning stage.now) cs w }
{}
