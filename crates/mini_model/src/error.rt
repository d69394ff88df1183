// Why a value is refused, and where.

ghost use Rattle.std.specs.Prelude.{◌≡◌, ◌↔◌, [], ◌∷◌, ◌++◌, None, Some, IsTrue, IfSome, IfOk, string_bytes};
ghost use Rattle.mini_model.specs.Faults.{pointer_text, fault_of, name_of_defect, IsUnder, item_step, bad_shape as wrong_shape, unsupported as unsupported_form, too_deep as deeper_than_allowed, early_name as name_is_early, early_jump as jump_is_early};
ghost use Rattle.mini_model.specs.declared.error.MinifyError.TheVariants.{OutOfMemory};

use crate::OutOfMemory as NoMemory;
use std::alloc::{AllocError, AllocFailed, Global};
use thiserror::Error;

/// A JSON pointer to a node (RFC 6901). That of the root is empty.
#[derive(Debug, Drop)]
pub struct Pointer {
    text: String,
}

impl Pointer {
    /// The pointer's text, without memory.
    pub fn as_str(&self) -> &str
        ensures { result.now ≡ pointer_text self.now }
    {
        self.text.as_str()
    }

    fn root(alloc: Global) -> Pointer
        ensures { pointer_text result ≡ [] }
    {
        Pointer {
            text: String::new(alloc),
        }
    }

    // The pointer from the node above, whose step leads to this one's root.
    fn below(&self, alloc: Global, step: &str) -> Result<Pointer, AllocError>
        ensures { IfOk result (λ p. pointer_text p ≡ 47 ∷ (step.now ++ pointer_text self.now)) }
    {
        let mut text = String::new(alloc);
        text.push('/')?;
        text.push_str(step)?;
        text.push_str(self.text.as_str())?;
        Ok(Pointer { text })
    }
}

/// Why a program is refused.
#[derive(Debug, Drop, Error)]
pub enum MinifyError {
    /// No memory was left. It may come in place of any other answer.
    #[error("out of memory")]
    OutOfMemory,
    /// The node at the pointer is no form of ESTree.
    #[error("bad shape at {}", .at.as_str())]
    BadShape { at: Pointer },
    /// The node at the pointer is a form that isn't read.
    #[error("unsupported at {}", .at.as_str())]
    Unsupported { at: Pointer },
    /// The node at the pointer nests one deeper than allowed.
    #[error("too deep at {}", .at.as_str())]
    TooDeep { at: Pointer },
    /// The identifier at the pointer declares a name that its scope can't have twice.
    #[error("early name at {}", .at.as_str())]
    EarlyName { at: Pointer },
    /// The jump at the pointer has no target.
    #[error("early jump at {}", .at.as_str())]
    EarlyJump { at: Pointer },
}

impl From<AllocError> for MinifyError {
    ghost from_gives = { λ _ e. e ≡ OutOfMemory };

    fn from(_gone: AllocError) -> MinifyError {
        MinifyError::OutOfMemory
    }
}

impl<T: Drop> From<AllocFailed<T>> for MinifyError {
    ghost from_gives = { λ _ e. e ≡ OutOfMemory };

    fn from(_gone: AllocFailed<T>) -> MinifyError {
        MinifyError::OutOfMemory
    }
}

impl From<NoMemory> for MinifyError {
    ghost from_gives = { λ _ e. e ≡ OutOfMemory };

    fn from(_gone: NoMemory) -> MinifyError {
        MinifyError::OutOfMemory
    }
}

impl MinifyError {
    /// Whether the error is `OutOfMemory`, and so no defect of the value.
    pub fn is_memory(&self) -> bool
        ensures { IsTrue result ↔ (fault_of self.now ≡ None) }
    {
        match self {
            MinifyError::OutOfMemory => true,
            MinifyError::BadShape { .. } => false,
            MinifyError::Unsupported { .. } => false,
            MinifyError::TooDeep { .. } => false,
            MinifyError::EarlyName { .. } => false,
            MinifyError::EarlyJump { .. } => false,
        }
    }

    /// The name of the variant, as `BadShape`.
    pub fn variant(&self) -> &str
        ensures { IfSome (fault_of self.now) (λ f. result.now ≡ name_of_defect f.defect) }
    {
        match self {
            MinifyError::OutOfMemory => "OutOfMemory",
            MinifyError::BadShape { .. } => "BadShape",
            MinifyError::Unsupported { .. } => "Unsupported",
            MinifyError::TooDeep { .. } => "TooDeep",
            MinifyError::EarlyName { .. } => "EarlyName",
            MinifyError::EarlyJump { .. } => "EarlyJump",
        }
    }

    /// The text of the pointer to the node that has the defect (RFC 6901); empty for `OutOfMemory`.
    pub fn place(&self) -> &str
        ensures { IfSome (fault_of self.now) (λ f. result.now ≡ f.at) }
    {
        match self {
            MinifyError::OutOfMemory => "",
            MinifyError::BadShape { at } => at.as_str(),
            MinifyError::Unsupported { at } => at.as_str(),
            MinifyError::TooDeep { at } => at.as_str(),
            MinifyError::EarlyName { at } => at.as_str(),
            MinifyError::EarlyJump { at } => at.as_str(),
        }
    }

    /// This error as seen from the node above the one that its pointer starts at: the pointer gets
    /// `step`, the field or the item that leads down there, put before it. `OutOfMemory` stays, and
    /// comes where there is no memory for the pointer. The step has no `~`, and no `/` but that
    /// before an item's number.
    pub fn under(self, alloc: Global, step: &str) -> MinifyError
        ensures { IsUnder step.now (fault_of self) (fault_of result) }
    {
        match self {
            MinifyError::OutOfMemory => MinifyError::OutOfMemory,
            MinifyError::BadShape { at } => match at.below(alloc, step) {
                Ok(at) => MinifyError::BadShape { at },
                Err(_) => MinifyError::OutOfMemory,
            },
            MinifyError::Unsupported { at } => match at.below(alloc, step) {
                Ok(at) => MinifyError::Unsupported { at },
                Err(_) => MinifyError::OutOfMemory,
            },
            MinifyError::TooDeep { at } => match at.below(alloc, step) {
                Ok(at) => MinifyError::TooDeep { at },
                Err(_) => MinifyError::OutOfMemory,
            },
            MinifyError::EarlyName { at } => match at.below(alloc, step) {
                Ok(at) => MinifyError::EarlyName { at },
                Err(_) => MinifyError::OutOfMemory,
            },
            MinifyError::EarlyJump { at } => match at.below(alloc, step) {
                Ok(at) => MinifyError::EarlyJump { at },
                Err(_) => MinifyError::OutOfMemory,
            },
        }
    }

    /// This error as seen from the node above the one that its pointer starts at, which is the item
    /// at `index` of the list field `key`: the pointer gets both put before it. `OutOfMemory`
    /// stays, and comes where there is no memory for the pointer.
    pub fn under_item(self, alloc: Global, key: &str, index: usize) -> MinifyError
        ensures { IsUnder (item_step key.now index) (fault_of self) (fault_of result) }
    {
        match item_step(alloc, key, index) {
            Ok(step) => self.under(alloc, step.as_str()),
            Err(_) => MinifyError::OutOfMemory,
        }
    }
}

fn item_step(alloc: Global, key: &str, index: usize) -> Result<String, AllocError>
    ensures { IfOk result (λ s. string_bytes s ≡ item_step key.now index) }
{
    let mut step = String::from_str(alloc, key)?;
    step.push('/')?;
    step.push_str(index.to_string(alloc)?.as_str())?;
    Ok(step)
}

/// The error `BadShape` of the root: it is no form of ESTree. It takes no memory.
pub fn bad_shape(alloc: Global) -> MinifyError
    ensures { fault_of result ≡ Some (record { defect = wrong_shape; at = [] }) }
{
    MinifyError::BadShape {
        at: Pointer::root(alloc),
    }
}

/// The error `Unsupported` of the root: its form isn't read. It takes no memory.
pub fn unsupported(alloc: Global) -> MinifyError
    ensures { fault_of result ≡ Some (record { defect = unsupported_form; at = [] }) }
{
    MinifyError::Unsupported {
        at: Pointer::root(alloc),
    }
}

/// The error `TooDeep` of the root: it nests one deeper than allowed. It takes no memory.
pub fn too_deep(alloc: Global) -> MinifyError
    ensures { fault_of result ≡ Some (record { defect = deeper_than_allowed; at = [] }) }
{
    MinifyError::TooDeep {
        at: Pointer::root(alloc),
    }
}

/// The error `EarlyName` of the root: it declares a name that its scope can't have twice. It takes
/// no memory.
pub fn early_name(alloc: Global) -> MinifyError
    ensures { fault_of result ≡ Some (record { defect = name_is_early; at = [] }) }
{
    MinifyError::EarlyName {
        at: Pointer::root(alloc),
    }
}

/// The error `EarlyJump` of the root: it is a jump without a target. It takes no memory.
pub fn early_jump(alloc: Global) -> MinifyError
    ensures { fault_of result ≡ Some (record { defect = jump_is_early; at = [] }) }
{
    MinifyError::EarlyJump {
        at: Pointer::root(alloc),
    }
}
