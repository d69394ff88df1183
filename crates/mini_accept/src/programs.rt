//! Laws on well-shaped trees, each as the contract of a function that does nothing.
ghost use Rattle.mini_accept.specs.Programs.{WellShapedIsProgram};

/// A well-shaped tree is a program: nothing but its directives and statements stands at its root.
pub fn well_shaped_is_program()
    ensures { WellShapedIsProgram }
{}
