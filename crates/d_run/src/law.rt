//! What holds of all answers, whatever the words and the files are.

ghost use Rattle.d_run.specs.Law.{HasOneAnswer};

/// To every list of words and all files there is exactly one answer.
pub fn answers_once()
    ensures { HasOneAnswer }
{}
