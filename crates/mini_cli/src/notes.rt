ghost use Rattle.std.specs.Prelude.{◌≡◌, Some, IfOk, string_bytes};
ghost use Rattle.mini_cli.specs.Run.{IfTold, note_of, note_line};
ghost use Rattle.mini_model.specs.Faults.{Fault, fault_of};

use crate::answering::Refusal;
use mini_model::MinifyError;
use std::alloc::{AllocError, Global};

#[tactic(auto, unfolding(crate::specs::Run::note_line))]
fn note(alloc: Global, defect: &str, place: &str) -> Result<String, AllocError>
    ensures { IfOk result (λ text. string_bytes text ≡ note_line defect.now place.now) }
{
    let mut told = String::new(alloc);
    told.push_str("refused: ")?;
    told.push_str(defect)?;
    told.push_str(" at ")?;
    told.push_str(place)?;
    told.push('\n')?;
    Ok(told)
}

/// The refusal of a value that has this defect at this place, as `refused: BadShape at /body/0`.
/// The root's place is empty.
///
/// It is `OutOfMemory` where there is no memory for the line.
pub fn refuse(alloc: Global, defect: &str, place: &str) -> Refusal
    ensures { IfTold result (λ line. line ≡ note_line defect.now place.now) }
{
    match note(alloc, defect, place) {
        Ok(line) => Refusal::Told(line),
        Err(_) => Refusal::OutOfMemory,
    }
}

/// The refusal that tells of an error of reading: the defect's name and the JSON pointer (RFC 6901)
/// to the node that has it.
///
/// It is `OutOfMemory` for that error, and where there is no memory for the line.
pub fn refuse_unread(alloc: Global, error: &MinifyError) -> Refusal
    ensures { IfTold result (λ line. (f : Fault) × (fault_of error.now ≡ Some f) × (line ≡ note_of f)) }
{
    if error.is_memory() {
        return Refusal::OutOfMemory;
    }
    refuse(alloc, error.variant(), error.place())
}
