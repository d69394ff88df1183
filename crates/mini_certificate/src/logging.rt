// A certificate is made of a program.

ghost use Rattle.std.specs.Prelude.{◌≡◌, ◌+◌, ◌<◌, ◌^◌, None, Some, length, string_bytes, IfSome, IfOk, IfErr, OnOk};
ghost use Rattle.serde_json.specs.Data.{Data};
ghost use Rattle.serde_json.specs.View.{view};
ghost use Rattle.mini_model.specs.Faults.{fault_of};
ghost use Rattle.mini_accept.specs.Accept.{Accepts};
ghost use Rattle.mini_accept.specs.WellShaped.{IsWellShaped};
ghost use Rattle.mini_laws.specs.References.{references};
ghost use Rattle.mini_laws.specs.Resolved.{symbols, resolved_program};
ghost use Rattle.mini_laws.specs.declared.names.Use.TheVariants as variant;
ghost use Rattle.mini_log.specs.RowStep.{replayed};
ghost use Rattle.mini_scope.specs.Pointers.{early_fault};
ghost use Rattle.mini_replay.specs.Checking.{NoStepLeft, Upheld, entries};
ghost use Rattle.mini_writer.specs.Fits.{Fits as IsSmall};
ghost use Rattle.mini_cli.specs.Run.{IfTold};
ghost use Rattle.mini_certificate.specs.Checked.{log_task, writable, HasEarlyError, IsLogged};

use crate::reading::read_tree;
use crate::written::{program_value, tell_certificate};
use mini_checker::Log;
use mini_cli::{Answering, Refusal, refuse_unread};
use mini_context::{TraverseCtx, resolve};
use mini_log::laws::accepted_logs_keep;
use mini_logged::log_rows;
use mini_model::MinifyError;
use mini_node::{Node, discard};
use mini_tree::CompressOptions;
use serde_json::Value;
use std::alloc::Global;

// Gives each name of a program its symbol, and makes steps of it until no row has one.
fn make_steps(alloc: Global, tree: &mut Node, options: &CompressOptions) -> Result<Log, MinifyError>
    requires shaped { IsWellShaped tree.old }
    requires symbols { symbols variant.Read tree.old < 2 ^ 32 }
    requires references { length (references variant.Read tree.old) + 1 < 2 ^ 32 }
    ensures free { OnOk result (early_fault tree.old ≡ None) }
    ensures replays { IfOk result (λ log. replayed options.now.sequences (writable tree.old) (resolved_program tree.old) (entries log) ≡ Some tree.new) }
    ensures all { IfOk result (λ log. length log < 4294967295 → NoStepLeft options.now.sequences (writable tree.old) tree.new) }
    ensures upheld { IfOk result (λ log. Upheld options.now (resolved_program tree.old) tree.new (length log)) }
    ensures refused { IfErr result (λ e. IfSome (fault_of e) (λ f. early_fault tree.old ≡ Some f)) }
{
    let scopes = resolve(alloc, tree)?;
    let mut context = TraverseCtx::new(scopes, *options);
    let log = log_rows(alloc, tree, &mut context, 4_294_967_295)?;
    Ok(log)
}

fn log_tree(alloc: Global, tree: &mut Node, options: &CompressOptions) -> Result<String, Refusal>
    requires shaped { IsWellShaped tree.old }
    requires symbols { symbols variant.Read tree.old < 2 ^ 32 }
    requires references { length (references variant.Read tree.old) + 1 < 2 ^ 32 }
    requires read { ((d : Data) × Accepts d tree.old) }
    ensures answered { IfOk result (λ text. IsLogged options.now tree.old (string_bytes text)) }
    ensures refused { IfErr result (λ e. IfTold e (HasEarlyError tree.old)) }
{
    let program = match program_value(alloc, tree) {
        Ok(program) => program,
        Err(_) => return Err(Refusal::OutOfMemory),
    };
    accepted_logs_keep();
    match make_steps(alloc, tree, options) {
        Ok(log) => tell_certificate(alloc, program, &log),
        Err(error) => Err(refuse_unread(alloc, &error)),
    }
}

// The answer to a program as it was read.
fn log_read(alloc: Global, tree: Node, options: &CompressOptions) -> Result<String, Refusal>
    requires shaped { IsWellShaped tree }
    requires symbols { symbols variant.Read tree < 2 ^ 32 }
    requires references { length (references variant.Read tree) + 1 < 2 ^ 32 }
    requires read { ((d : Data) × Accepts d tree) }
    ensures answered { IfOk result (λ text. IsLogged options.now tree (string_bytes text)) }
    ensures refused { IfErr result (λ e. IfTold e (HasEarlyError tree)) }
{
    let mut root = tree;
    let answer = log_tree(alloc, &mut root, options);
    discard(root);
    answer
}

fn log(alloc: Global, value: Value, options: &CompressOptions) -> Result<String, Refusal>
    requires { IsSmall (view value) }
    ensures answered { IfOk result (λ text. (log_task options.now).answers (view value) (string_bytes text)) }
    ensures refused { IfErr result (λ e. IfTold e ((log_task options.now).refuses (view value))) }
{
    let read = read_tree(alloc, &value, options.max_depth);
    drop(value);
    match read {
        Ok(tree) => log_read(alloc, tree, options),
        Err(error) => Err(refuse_unread(alloc, &error)),
    }
}

/// Makes certificates.
#[derive(Clone, Copy)]
pub struct Logging {
    /// The options that the rows read, and how deep the nodes of a program may nest.
    pub options: CompressOptions,
}

impl Answering for Logging {
    ghost task = { λ l. log_task l.options };

    fn answer(&self, alloc: Global, value: Value) -> Result<String, Refusal> {
        log(alloc, value, &self.options)
    }
}
