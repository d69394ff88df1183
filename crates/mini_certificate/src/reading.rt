// Programs and certificates as they are read from JSON.

ghost use Rattle.std.specs.Prelude.{codes};
ghost use Rattle.serde_json.specs.Find.{get};
ghost use Rattle.serde_json.specs.View.{view};
ghost use Rattle.mini_model.specs.Faults.{under, Gives};
ghost use Rattle.mini_certificate.specs.Certificates as certificates;

use crate::entries::read_log;
use mini_checker::Log;
use mini_estree::read_program;
use mini_model::{MinifyError, bad_shape};
use mini_node::Node;
use serde_json::Value;
use std::alloc::Global;

/// A program with a log of rewrites of it.
#[derive(Drop)]
pub struct Certificate {
    /// The program.
    pub program: Node,
    /// The log.
    pub log: Log,
}

// A member of a certificate.
fn member<'v>(alloc: Global, value: &'v Value, key: &str) -> Result<&'v Value, MinifyError>
    ensures { Gives (λ found. view found.now) result (certificates.member_or (get key.now (view value.now))) }
{
    match value.get(key) {
        Some(found) => Ok(found),
        None => Err(bad_shape(alloc)),
    }
}

/// The tree of a program, whose nodes nest at most `max_depth` deep, the program being at depth 1;
/// no name has a symbol.
///
/// The error points to the first node that is no form of ESTree (`BadShape`), is a form that isn't
/// read (`Unsupported`) or nests too deep (`TooDeep`). `OutOfMemory` may come in place of any
/// answer.
#[tactic(auto, using(crate::proofs::Parts::tree_read, crate::proofs::Parts::tree_refused))]
pub fn read_tree(alloc: Global, value: &Value, max_depth: u32) -> Result<Node, MinifyError>
    ensures { Gives (λ tree. tree) result (certificates.tree_at max_depth (view value.now)) }
{
    match read_program(alloc, value, max_depth) {
        Ok(numbered) => Ok(numbered.root),
        Err(error) => Err(error),
    }
}

// That of the member `program` of a certificate.
#[tactic(auto, using(crate::proofs::Parts::read_under, crate::proofs::Parts::fails_under))]
fn read_member(alloc: Global, value: &Value, max_depth: u32) -> Result<Node, MinifyError>
    ensures { Gives (λ tree. tree) result (under (codes "program") (certificates.tree_at max_depth (view value.now))) }
{
    match read_tree(alloc, value, max_depth) {
        Ok(tree) => Ok(tree),
        Err(error) => Err(error.under(alloc, "program")),
    }
}

/// The program and the log of a certificate, an object with the members `log` and `program`. Of
/// the program, nodes nest at most `max_depth` deep, and no name has a symbol.
///
/// `BadShape` points to the object where it has no such member, else to the log where that is no
/// list, else to the first item of it that is no entry, else to the first node of the program that
/// is no form of ESTree; `Unsupported` and `TooDeep` point to a node of the program as well.
/// `OutOfMemory` may come in place of any answer.
pub fn read_certificate(
    alloc: Global,
    value: &Value,
    max_depth: u32,
) -> Result<Certificate, MinifyError>
    ensures { Gives (λ certificate. (certificate.program, certificate.log)) result (certificates.certificate_at max_depth (view value.now)) }
{
    let entries = member(alloc, value, "log")?;
    let program = member(alloc, value, "program")?;
    let log = read_log(alloc, entries)?;
    let tree = read_member(alloc, program, max_depth)?;
    Ok(Certificate { program: tree, log })
}
