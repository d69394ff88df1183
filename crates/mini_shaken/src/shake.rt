//! An ESTree value in, and one without dead items out.

ghost use Rattle.std.specs.Prelude.{◌≡◌, ◌+◌, ◌<◌, ◌^◌, length, OnOk, IfOk, IfErr, IfSome, false};
ghost use Rattle.serde_json.specs.View.{view};
ghost use Rattle.serde_json.specs.Written.{has_float};
ghost use Rattle.mini_accept.specs.WellShaped.{IsWellShaped};
ghost use Rattle.mini_context.specs.Known.{Knows};
ghost use Rattle.mini_laws.specs.References.{references};
ghost use Rattle.mini_laws.specs.Resolved.{symbols};
ghost use Rattle.mini_laws.specs.declared.names.Use.TheVariants as variant;
ghost use Rattle.mini_model.specs.Faults.{fault_of};
ghost use Rattle.mini_scope.specs.Pointers.{early_fault};
ghost use Rattle.mini_shrink.specs.SameForeign.{DeclaresOnce};
ghost use Rattle.mini_tree.specs.declared.options.CompressOptions.{CompressOptions};
ghost use Rattle.mini_writer.specs.Fits.{Fits};
ghost use Rattle.mini_peephole.specs.Minified.{IsRefusal};
ghost use Rattle.mini_shaken.specs.Shaking.{Turns, Shakes, TellsTree, IsShakenAnswer};
ghost use Rattle.mini_shaken.specs.Shaken.{Shaken};

use mini_context::{TraverseCtx, resolve};
use mini_drop::drop_dead;
use mini_estree::{MinifyError, Numbered, read_program};
use mini_peephole::{Minified, numbers_of, rewrite_once, symbols_of};
use mini_tree::{CompressOptions, Context, OutOfMemory, Passes, Program, discard};
use mini_writer::write_program;
use serde_json::Value;
use std::alloc::Global;

// A pass over a program; where it finds nothing, dead items go. The answer says whether anything
// changed.
fn turn(alloc: Global, tree: &mut Program, context: &mut TraverseCtx) -> Result<bool, OutOfMemory>
    requires known { ((o : CompressOptions) × Knows context.old o tree.old) }
    requires once { DeclaresOnce tree.old }
    ensures turns { (o : CompressOptions) → Knows context.old o tree.old → IfOk result (λ changed. Turns o tree.old tree.new changed) }
    ensures known { (o : CompressOptions) → Knows context.old o tree.old → OnOk result (Knows context.new o tree.new) }
{
    if rewrite_once(alloc, tree, context)? {
        context.refresh(alloc, tree)?;
        return Ok(true);
    }
    let gone = drop_dead(alloc, tree, context)?;
    Ok(gone > 0)
}

// Dead items go, and passes are made, until neither changes anything or the passes of the options
// are made (0 is read as 1). Nothing is dead then.
fn shake(
    alloc: Global,
    tree: &mut Program,
    options: &CompressOptions,
    context: &mut TraverseCtx,
) -> Result<Passes, OutOfMemory>
    requires known { Knows context.old options.now tree.old }
    requires once { DeclaresOnce tree.old }
    ensures { IfOk result (λ made. Shakes options.now tree.old tree.new options.now.passes made.passes made.settled) }
{
    let bound = options.passes.max(1);
    drop_dead(alloc, tree, context)?;
    let mut passes = 1;
    'turns: while turn(alloc, tree, context)? {
        if passes >= bound {
            drop_dead(alloc, tree, context)?;
            let settled = false;
            return Ok(Passes { passes, settled });
        }
        passes += 1;
    }
    let settled = true;
    Ok(Passes { passes, settled })
}

// The answer that tells a resolved tree, to which passes led.
fn told_of(alloc: Global, tree: &Program, made: Passes) -> Result<Minified, OutOfMemory>
    ensures tells { IfOk result (λ m. TellsTree tree.now m) }
    ensures passes { IfOk result (λ m. m.passes ≡ made.passes) }
    ensures settled { IfOk result (λ m. m.settled ≡ made.settled) }
    ensures plain { IfOk result (λ m. has_float (view m.program) ≡ false) }
{
    let program = write_program(alloc, tree)?;
    let kept = numbers_of(alloc, tree)?;
    let symbols = symbols_of(alloc, tree)?;
    Ok(Minified {
        program,
        kept,
        symbols,
        passes: made.passes,
        settled: made.settled,
    })
}

// The answer for a tree as it was read, which is resolved and changed in place.
fn answer(
    alloc: Global,
    tree: &mut Program,
    options: &CompressOptions,
) -> Result<Minified, MinifyError>
    requires shaped { IsWellShaped tree.old }
    requires symbols { symbols variant.Read tree.old < 2 ^ 32 }
    requires references { length (references variant.Read tree.old) + 1 < 2 ^ 32 }
    ensures ok { IfOk result (λ m. IsShakenAnswer tree.old options.now m) }
    ensures plain { IfOk result (λ m. has_float (view m.program) ≡ false) }
    ensures refused { IfErr result (λ e. IfSome (fault_of e) (λ f. early_fault tree.old ≡ Some f)) }
{
    let scopes = resolve(alloc, tree)?;
    let mut context = TraverseCtx::new(scopes, *options);
    let made = shake(alloc, tree, options, &mut context)?;
    let minified = told_of(alloc, tree, made)?;
    Ok(minified)
}

// The answer for a program as it was read, which is let go.
fn shake_read(
    alloc: Global,
    read: Numbered,
    options: &CompressOptions,
) -> Result<Minified, MinifyError>
    requires shaped { IsWellShaped read.root }
    requires symbols { symbols variant.Read read.root < 2 ^ 32 }
    requires references { length (references variant.Read read.root) + 1 < 2 ^ 32 }
    ensures ok { IfOk result (λ m. IsShakenAnswer read.root options.now m) }
    ensures plain { IfOk result (λ m. has_float (view m.program) ≡ false) }
    ensures refused { IfErr result (λ e. IfSome (fault_of e) (λ f. early_fault read.root ≡ Some f)) }
{
    let Numbered { mut root, .. } = read;
    let made = answer(alloc, &mut root, options);
    discard(root);
    made
}

/// Reads a program from its ESTree value, gives each name in it its symbol, takes out what is dead
/// and rewrites what is left, in turn, until neither changes anything or the passes of the options
/// are made, and writes it.
///
/// A value is refused where `mini_peephole::minify_estree` refuses it, with the same error.
/// `OutOfMemory` may come in place of any answer. The value has to fit: `mini_writer::fits` tells,
/// and what 16,777,216 bytes of JSON say does.
#[tactic(auto, using(mini_peephole::proofs::Refused::refused_by_table))]
pub fn shake_estree(
    alloc: Global,
    program: &Value,
    options: &CompressOptions,
) -> Result<Minified, MinifyError>
    requires { Fits (view program.now) }
    ensures shaken { IfOk result (λ m. Shaken (view program.now) options.now m) }
    ensures plain { IfOk result (λ m. has_float (view m.program) ≡ false) }
    ensures refused { IfErr result (λ e. IsRefusal (view program.now) options.now e) }
{
    let read = read_program(alloc, program, options.max_depth)?;
    shake_read(alloc, read, options)
}

/// Does with a value that is given away what `shake_estree` does with one that is borrowed. It is
/// dropped as soon as it is read, so that all that comes after has its memory.
#[tactic(auto, using(mini_peephole::proofs::Refused::refused_by_table))]
pub fn shake_value(
    alloc: Global,
    program: Value,
    options: &CompressOptions,
) -> Result<Minified, MinifyError>
    requires { Fits (view program) }
    ensures shaken { IfOk result (λ m. Shaken (view program) options.now m) }
    ensures plain { IfOk result (λ m. has_float (view m.program) ≡ false) }
    ensures refused { IfErr result (λ e. IsRefusal (view program) options.now e) }
{
    let made = read_program(alloc, &program, options.max_depth);
    drop(program);
    let read = made?;
    shake_read(alloc, read, options)
}
