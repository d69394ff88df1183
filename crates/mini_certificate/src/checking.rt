// A certificate that anyone wrote is checked.

ghost use Rattle.std.specs.Prelude.{◌≡◌, ◌+◌, ◌<◌, ◌^◌, ℕ, None, Some, codes, length, string_bytes, IfSome, IfOk, IfErr, OnOk};
ghost use Rattle.serde_json.specs.View.{view};
ghost use Rattle.mini_model.specs.Faults.{Fault, fault_of, fault_under};
ghost use Rattle.mini_accept.specs.WellShaped.{IsWellShaped};
ghost use Rattle.mini_laws.specs.References.{references};
ghost use Rattle.mini_laws.specs.Resolved.{symbols, resolved_program};
ghost use Rattle.mini_laws.specs.declared.names.Use.TheVariants as variant;
ghost use Rattle.mini_scope.specs.Pointers.{early_fault};
ghost use Rattle.mini_replay.specs.Checking.{Judged, Upheld, made_by};
ghost use Rattle.mini_writer.specs.Fits.{Fits as IsSmall};
ghost use Rattle.mini_cli.specs.Run.{IfTold, note_of};
ghost use Rattle.mini_checker.specs.declared.log.Verdict.TheVariants as verdict_of;
ghost use Rattle.mini_certificate.specs.Certificates.{last_data, line_of, no_step_note};
ghost use Rattle.mini_certificate.specs.Checked.{check_task, writable, DoesNotHold, Holds, IsChecked, IsRejected};

use crate::reading::{Certificate, read_certificate};
use crate::written::{refuse_entry, tell_last};
use mini_checker::{Log, Verdict};
use mini_cli::{Answering, Refusal, refuse_unread};
use mini_context::{TraverseCtx, resolve};
use mini_logged::check_log;
use mini_model::MinifyError;
use mini_node::{Node, discard};
use mini_tree::CompressOptions;
use serde_json::Value;
use std::alloc::Global;

// Gives each name of a program its symbol, and makes the entries of a log, up to the first that has
// no step.
fn judge(
    alloc: Global,
    tree: &mut Node,
    log: &Log,
    options: &CompressOptions,
) -> Result<Verdict, MinifyError>
    requires shaped { IsWellShaped tree.old }
    requires symbols { symbols variant.Read tree.old < 2 ^ 32 }
    requires references { length (references variant.Read tree.old) + 1 < 2 ^ 32 }
    requires short { length log.now < 2 ^ 32 }
    ensures free { OnOk result (early_fault tree.old ≡ None) }
    ensures judged { IfOk result (Judged options.now.sequences (writable tree.old) (resolved_program tree.old) tree.new log.now) }
    ensures upheld { IfOk result (λ verdict. Upheld options.now (resolved_program tree.old) tree.new (made_by log.now verdict)) }
    ensures refused { IfErr result (λ e. IfSome (fault_of e) (λ f. early_fault tree.old ≡ Some f)) }
{
    let scopes = resolve(alloc, tree)?;
    let mut context = TraverseCtx::new(scopes, *options);
    let verdict = check_log(alloc, tree, &mut context, log)?;
    Ok(verdict)
}

// The refusal of a certificate whose program has this error.
fn refuse_program(alloc: Global, error: MinifyError) -> Refusal
    ensures { IfTold result (λ line. (f : Fault) × (fault_of error ≡ Some f) × (line ≡ note_of (fault_under (codes "program") f))) }
{
    refuse_unread(alloc, &error.under(alloc, "program"))
}

// What is told where a check of a log ends so, at this program.
fn tell(alloc: Global, verdict: Verdict, last: &Node) -> Result<String, Refusal>
    ensures answered { IfOk result (λ text. (verdict ≡ verdict_of.Yes) × (string_bytes text ≡ line_of (last_data last.now))) }
    ensures refused { IfErr result (λ e. IfTold e (λ line. (k : ℕ) × (verdict ≡ verdict_of.No k) × (line ≡ no_step_note k))) }
{
    match verdict {
        Verdict::Yes => tell_last(alloc, last),
        Verdict::No { entry } => Err(refuse_entry(alloc, entry)),
    }
}

fn check_tree(
    alloc: Global,
    tree: &mut Node,
    log: &Log,
    options: &CompressOptions,
) -> Result<String, Refusal>
    requires shaped { IsWellShaped tree.old }
    requires symbols { symbols variant.Read tree.old < 2 ^ 32 }
    requires references { length (references variant.Read tree.old) + 1 < 2 ^ 32 }
    requires short { length log.now < 2 ^ 32 }
    ensures answered { IfOk result (λ text. Holds options.now tree.old log.now (string_bytes text)) }
    ensures refused { IfErr result (λ e. IfTold e (DoesNotHold options.now tree.old log.now)) }
{
    match judge(alloc, tree, log, options) {
        Ok(verdict) => tell(alloc, verdict, tree),
        Err(error) => Err(refuse_program(alloc, error)),
    }
}

// The answer to a certificate as it was read. Memory counts as run out where the log has 2^32
// entries.
fn check_read(
    alloc: Global,
    certificate: Certificate,
    options: &CompressOptions,
) -> Result<String, Refusal>
    requires shaped { IsWellShaped certificate.program }
    requires symbols { symbols variant.Read certificate.program < 2 ^ 32 }
    requires references { length (references variant.Read certificate.program) + 1 < 2 ^ 32 }
    ensures answered { IfOk result (λ text. Holds options.now certificate.program certificate.log (string_bytes text)) }
    ensures refused { IfErr result (λ e. IfTold e (DoesNotHold options.now certificate.program certificate.log)) }
{
    let Certificate { mut program, log } = certificate;
    if log.len() > 4_294_967_295 {
        discard(program);
        return Err(Refusal::OutOfMemory);
    }
    let answer = check_tree(alloc, &mut program, &log, options);
    discard(program);
    answer
}

fn check(alloc: Global, value: Value, options: &CompressOptions) -> Result<String, Refusal>
    requires { IsSmall (view value) }
    ensures answered { IfOk result (λ text. IsChecked options.now (view value) (string_bytes text)) }
    ensures refused { IfErr result (λ e. IfTold e (IsRejected options.now (view value))) }
{
    let read = read_certificate(alloc, &value, options.max_depth);
    drop(value);
    match read {
        Ok(certificate) => check_read(alloc, certificate, options),
        Err(error) => Err(refuse_unread(alloc, &error)),
    }
}

/// Checks certificates.
#[derive(Clone, Copy)]
pub struct Checking {
    /// The options that the rows read, and how deep the nodes of a program may nest.
    pub options: CompressOptions,
}

impl Answering for Checking {
    ghost task = { λ c. check_task c.options };

    fn answer(&self, alloc: Global, value: Value) -> Result<String, Refusal> {
        check(alloc, value, &self.options)
    }
}
