//! Laws over the definitions. No code runs.

ghost use Rattle.replay_check.specs.Verdicts.{VerdictsJudge};

/// The verdict is yes exactly where the run by itself isn't refuted.
pub fn verdict_law()
    ensures { VerdictsJudge }
{}
