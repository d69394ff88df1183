//! The laws of a row's step and of a log.

ghost use Rattle.mini_log.specs.Laws.{LogIsAWay, LogKeeps, LogLightens, RowStepIsAStep, RowStepLightens};

/// The step of a row at a path is a step by a row of the rewrites, and makes the program lighter,
/// whatever the options let happen and whichever variables can be written.
pub fn row_steps_are_steps()
    ensures step { RowStepIsAStep }
    ensures lighter { RowStepLightens }
{}

/// A log whose entries all have a step leads by such steps from the first program to the last. That
/// one keeps all that a program has to keep, and is lighter by at least the number of entries.
pub fn accepted_logs_keep()
    ensures way { LogIsAWay }
    ensures keeps { LogKeeps }
    ensures lighter { LogLightens }
{}
