//! The rows on templates.

ghost use Rattle.mini_kept.specs.Lawful.{Lawful};
ghost use Rattle.mini_laws.specs.Rewritten.{MeansSame};
ghost use Rattle.mini_laws.specs.Weights.{Lightens};
ghost use Rattle.mini_rows.specs.Templates.{TemplateContracts};

/// What a row on templates writes means the same wherever the expression stands, and a parent reads
/// it alike.
pub fn templates_mean_the_same()
    ensures { MeansSame TemplateContracts }
{}

/// A step by a row on templates makes the whole lighter, where what it writes is lighter in its
/// place.
pub fn templates_lighten()
    ensures { Lightens TemplateContracts }
{}

/// What a row on templates writes keeps all that a program has to keep.
pub fn templates_are_lawful()
    ensures { Lawful TemplateContracts }
{}
