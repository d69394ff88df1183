//! What the first fault of a program says of the program.

ghost use Rattle.std.specs.Prelude.{◌≡◌, true, Some, None};
ghost use Rattle.mini_model.specs.Tree.{Tree};
ghost use Rattle.mini_print.specs.Unprintable.{Fault, first_fault};
ghost use Rattle.mini_faults.specs.There.{IsThere, has_no_fault};

/// The path of the first fault leads to a node that has its cause; and of a program that has none
/// no node has a cause, at any depth.
pub fn faults_are_there()
    ensures there { (t : Tree) (f : Fault) → first_fault t ≡ Some f → IsThere t f }
    ensures none { (t : Tree) → first_fault t ≡ None → has_no_fault t ≡ true }
{}
