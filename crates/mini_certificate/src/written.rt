// What is written: certificates, the programs to which their logs lead, and why there is none.

ghost use Rattle.std.specs.Prelude.{◌≡◌, ◌∷◌, false, codes, string_bytes, IfOk, IfErr};
ghost use Rattle.serde_json.specs.Data.{object, member, no_members};
ghost use Rattle.serde_json.specs.View.{view};
ghost use Rattle.serde_json.specs.Written.{has_float};
ghost use Rattle.mini_cli.specs.Run.{IfTold};
ghost use Rattle.mini_model.specs.Faults.{item_step};
ghost use Rattle.mini_writer.specs.Written.{program_data};
ghost use Rattle.mini_certificate.specs.Certificates.{last_data, line_of, no_step_note};
ghost use Rattle.mini_certificate.specs.Logs as logs;

use mini_checker::{Log, LogEntry};
use mini_cli::{Refusal, refuse};
use mini_model::Numbers;
use mini_node::Node;
use mini_writer::write_program;
use serde_json::{Map, Value, put};
use std::alloc::{AllocError, Global};

// ---- logs

fn numbers_value(alloc: Global, numbers: &Numbers) -> Result<Value, AllocError>
    ensures { IfOk result (λ value. (view value ≡ logs.numbers_data numbers.now) × logs.AreSmall numbers.now) }
{
    let mut values: Vec<Value> = Vec::new(alloc);
    for number in numbers.as_slice() {
        values.push(Value::from(*number))?;
    }
    Ok(Value::from(values))
}

fn entry_value(alloc: Global, entry: &LogEntry) -> Result<Value, AllocError>
    ensures { IfOk result (λ value. (view value ≡ logs.entry_data entry.now) × logs.HasSmall entry.now) }
{
    let path = numbers_value(alloc, &entry.at)?;
    let mut values: Vec<Value> = Vec::new(alloc);
    values.push(Value::from(entry.row))?;
    values.push(path)?;
    Ok(Value::from(values))
}

/// The list of the entries of a log, each `[row, [index, ..]]`. The only error is that memory runs
/// out.
pub fn log_value(alloc: Global, log: &Log) -> Result<Value, AllocError>
    ensures { IfOk result (λ value. logs.WrittenSmall (view value ≡ logs.log_data log.now) log.now) }
{
    let mut values: Vec<Value> = Vec::new(alloc);
    for entry in log.as_slice() {
        values.push(entry_value(alloc, entry)?)?;
    }
    Ok(Value::from(values))
}

// ---- programs

/// The ESTree value of a program. The only error is that memory runs out.
pub fn program_value(alloc: Global, program: &Node) -> Result<Value, AllocError>
    ensures { IfOk result (λ value. view value ≡ program_data program.now) }
{
    match write_program(alloc, program) {
        Ok(value) => Ok(value),
        Err(_) => Err(AllocError),
    }
}

fn last_value(alloc: Global, program: &Node) -> Result<Value, AllocError>
    ensures { IfOk result (λ value. view value ≡ last_data program.now) }
{
    let mut members = Map::new(alloc);
    put(
        &mut members,
        alloc,
        "program",
        program_value(alloc, program)?,
    )?;
    put(
        &mut members,
        alloc,
        "verdict",
        Value::try_from_str(alloc, "Yes")?,
    )?;
    Ok(Value::Object(members))
}

fn certificate_value(alloc: Global, program: Value, log: &Log) -> Result<Value, AllocError>
    ensures { IfOk result (λ value. logs.WrittenSmall (view value ≡ object (member (codes "log") (logs.log_data log.now) (member (codes "program") (view program) no_members))) log.now) }
{
    let entries = log_value(alloc, log)?;
    let mut members = Map::new(alloc);
    put(&mut members, alloc, "log", entries)?;
    put(&mut members, alloc, "program", program)?;
    Ok(Value::Object(members))
}

// ---- texts

#[tactic(auto, unfolding(crate::specs::Certificates::line_of))]
fn line(alloc: Global, value: &Value) -> Result<String, AllocError>
    requires { has_float (view value.now) ≡ false }
    ensures { IfOk result (λ text. string_bytes text ≡ line_of (view value.now)) }
{
    let mut text = value.to_string(alloc)?;
    text.push('\n')?;
    Ok(text)
}

fn last_line(alloc: Global, program: &Node) -> Result<String, AllocError>
    ensures { IfOk result (λ text. string_bytes text ≡ line_of (last_data program.now)) }
{
    let value = last_value(alloc, program)?;
    line(alloc, &value)
}

fn certificate_line(alloc: Global, program: Value, log: &Log) -> Result<String, AllocError>
    requires { has_float (view program) ≡ false }
    ensures { IfOk result (λ text. logs.WrittenSmall (string_bytes text ≡ line_of (object (member (codes "log") (logs.log_data log.now) (member (codes "program") (view program) no_members)))) log.now) }
{
    let value = certificate_value(alloc, program, log)?;
    line(alloc, &value)
}

/// What is written of a program to which a log leads, as `{"program":..,"verdict":"Yes"}`.
pub fn tell_last(alloc: Global, program: &Node) -> Result<String, Refusal>
    ensures text { IfOk result (λ text. string_bytes text ≡ line_of (last_data program.now)) }
    ensures memory { IfErr result (λ e. IfTold e (λ line. ⊥)) }
{
    match last_line(alloc, program) {
        Ok(text) => Ok(text),
        Err(_) => Err(Refusal::OutOfMemory),
    }
}

/// What is written of the value of a program and a log of rewrites of it, as
/// `{"log":[[23,[0,0,1]]],"program":..}`.
pub fn tell_certificate(alloc: Global, program: Value, log: &Log) -> Result<String, Refusal>
    requires { has_float (view program) ≡ false }
    ensures text { IfOk result (λ text. logs.WrittenSmall (string_bytes text ≡ line_of (object (member (codes "log") (logs.log_data log.now) (member (codes "program") (view program) no_members)))) log.now) }
    ensures memory { IfErr result (λ e. IfTold e (λ line. ⊥)) }
{
    match certificate_line(alloc, program, log) {
        Ok(text) => Ok(text),
        Err(_) => Err(Refusal::OutOfMemory),
    }
}

// The JSON pointer to an entry of a log.
fn entry_place(alloc: Global, entry: u32) -> Result<String, AllocError>
    ensures { IfOk result (λ text. string_bytes text ≡ 47 ∷ item_step (codes "log") entry) }
{
    format!(in alloc; "/log/{entry}")
}

/// The refusal of a log of which this entry is the first that has no step, as `refused: NoStep at
/// /log/3`.
pub fn refuse_entry(alloc: Global, entry: u32) -> Refusal
    ensures { IfTold result (λ line. line ≡ no_step_note entry) }
{
    match entry_place(alloc, entry) {
        Ok(place) => refuse(alloc, "NoStep", place.as_str()),
        Err(_) => Refusal::OutOfMemory,
    }
}
