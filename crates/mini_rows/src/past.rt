//! Row 71 past steady names.

ghost use Rattle.mini_rows.specs.Past.{PastIsLawful, PastLightens, PastRunsAlike};
ghost use Rattle.mini_rows.specs.PastArrows.{PastArrowIsLawful, PastArrowLightens};
ghost use Rattle.mini_rows.specs.PastModules.{PastModuleIsLawful, PastModuleLightens};
ghost use Rattle.mini_rows.specs.PastStatics.{PastStaticIsLawful, PastStaticLightens};
ghost use Rattle.mini_rows.specs.PastInside.{PastInsideIsLawful, PastInsideLightens};
ghost use Rattle.mini_rows.specs.PastBlocks.{PastBlocksAreLawful, PastBlocksAreLawfulInParts, PastBlocksAreLawfulInPrograms, PastBlocksLighten, PastBlocksReadMore};

/// A body runs as before where row 71 moves an initializer past names that keep their value, from
/// each start that initialises what is known to be initialised, in any environment in which what is
/// known of the body is so, where nobody else sees the name that goes.
pub fn past_steady_names_run_alike()
    ensures { PastRunsAlike }
{}

/// What row 71 past steady names writes of a function makes the whole lighter, wherever the
/// function stands.
pub fn past_steady_names_lighten()
    ensures { PastLightens }
{}

/// What row 71 past steady names writes of a function keeps all that a program has to keep, but a
/// name that nothing mentions, where what is known of the function's body is so, and those
/// variables can be written for which the row acts.
pub fn past_steady_names_are_lawful()
    ensures { PastIsLawful }
{}

/// What row 71 past steady names writes of an arrow function makes the whole lighter, wherever it
/// stands.
pub fn past_steady_names_lighten_arrows()
    ensures { PastArrowLightens }
{}

/// What row 71 past steady names writes of an arrow function keeps all that a program has to keep,
/// but a name that nothing mentions, where what is known of the arrow function's body is so, and
/// those variables can be written for which the row acts.
pub fn past_steady_names_are_lawful_in_arrows()
    ensures { PastArrowIsLawful }
{}

/// What row 71 past steady names writes of a module is lighter than the module.
pub fn past_steady_names_lighten_modules()
    ensures { PastModuleLightens }
{}

/// What row 71 past steady names writes of a module keeps all that a program has to keep, but a
/// name that nothing mentions, where what is known of the module's body is so, and those variables
/// can be written for which the row acts.
pub fn past_steady_names_are_lawful_in_modules()
    ensures { PastModuleIsLawful }
{}

/// What row 71 past steady names writes of a static block makes the whole lighter, wherever the
/// block stands.
pub fn past_steady_names_lighten_static_blocks()
    ensures { PastStaticLightens }
{}

/// What row 71 past steady names writes of a static block keeps all that a program has to keep, but
/// a name that nothing mentions, where what is known of the block's body is so, and those variables
/// can be written for which the row acts.
pub fn past_steady_names_are_lawful_in_static_blocks()
    ensures { PastStaticIsLawful }
{}

/// What row 71 past steady names writes of a block further inside a body makes the whole lighter,
/// wherever the body stands.
pub fn past_steady_names_lighten_blocks()
    ensures { PastBlocksLighten }
{}

/// A block further inside a body that row 71 past steady names reads is read by it also where more
/// variables are known to have values.
pub fn past_steady_names_read_more_in_blocks()
    ensures { PastBlocksReadMore }
{}

/// What row 71 past steady names writes of a block further inside a function or an arrow function
/// keeps all that a program has to keep, but a name that nothing mentions, where what is known of
/// that body is so.
pub fn past_steady_names_are_lawful_in_blocks()
    ensures { PastBlocksAreLawful }
{}

/// What row 71 past steady names writes of a block further inside a static block or an inner
/// expression keeps all that a program has to keep, but a name that nothing mentions, where what is
/// known of that body is so.
pub fn past_steady_names_are_lawful_in_blocks_of_parts()
    ensures { PastBlocksAreLawfulInParts }
{}

/// What row 71 past steady names writes of a block further inside the body of a program keeps all
/// that the program has to keep, but a name that nothing mentions, where what is known of that body
/// is so.
pub fn past_steady_names_are_lawful_in_blocks_of_programs()
    ensures { PastBlocksAreLawfulInPrograms }
{}

/// What row 71 past steady names writes of a body in which a `var` stands further inside makes the
/// whole lighter, wherever the body stands.
pub fn past_steady_names_lighten_inside()
    ensures { PastInsideLightens }
{}

/// What row 71 past steady names writes of a body in which a `var` stands further inside keeps all
/// that a program has to keep, but a name that nothing mentions, where what is known of that body
/// is so, and those variables can be written for which the row acts.
pub fn past_steady_names_are_lawful_inside()
    ensures { PastInsideIsLawful }
{}
