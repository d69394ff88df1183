//! The context of rewrites: the numbers of names, the options, and the place where a node stands.

ghost use Rattle.std.specs.Prelude.{◌≡◌, ◌+◌, ◌-◌, ◌^◌, ◌<◌, ◌≤◌, min, length};
ghost use Rattle.mini_laws.specs.declared.names.Use.TheVariants as variant;
ghost use Rattle.mini_laws.specs.References.{references, reads as is_read, writes as is_write};
ghost use Rattle.mini_laws.specs.Counts.{Contained, FellBy};

use crate::scopes::Scopes;
use crate::steps::Steps;
use mini_model::Position;
use mini_node::Node;
use mini_tree::CompressOptions;
use std::marker::Brand;
use std::mem;
use std::sync::ledger::{Blank, Ledger};

/// Where a node stands: its position, and the number of the body in which it does.
#[derive(Clone, Copy)]
pub struct Parent {
    /// The place that the node's parent gives it.
    pub position: Position,
    /// The number of the innermost program, function, static block or inner expression around it.
    pub body: u32,
}

/// What a rewrite is handed beside the node: the numbers of the program's names, the options, and
/// where the node stands.
#[derive(Drop)]
pub struct TraverseCtx {
    /// What is known of the names.
    pub scopes: Scopes,
    /// What the minifier may do.
    pub options: CompressOptions,
    /// Where the node stands, which the caller of a rewrite sets.
    pub parent: Parent,
    changes: u64,
}

// Counts a part out, with a count of steps of its own.
fn count_out<L: Ledger>(scopes: &mut Scopes, part: &Node, blank: Blank)
    requires name { blank.name ≡ L.name }
    requires parts { blank.parts ≡ L.parts }
    requires some { 0 < blank.parts }
    requires reads { Contained is_read (references variant.Read part.now) scopes.old.reads }
    requires writes { Contained is_write (references variant.Read part.now) scopes.old.writes }
    ensures reads { FellBy is_read (references variant.Read part.now) scopes.old.reads scopes.new.reads }
    ensures writes { FellBy is_write (references variant.Read part.now) scopes.old.writes scopes.new.writes }
    ensures rest { scopes.new ≡ record scopes.old { reads = scopes.new.reads; writes = scopes.new.writes } }
{
    let mut steps = Steps::<L>::new(blank);
    scopes.count_out(part, &mut steps);
}

impl TraverseCtx {
    /// The context of a program with these names: nothing has changed yet, and no node stands
    /// anywhere.
    pub fn new(scopes: Scopes, options: CompressOptions) -> TraverseCtx
        ensures scopes { result.scopes ≡ scopes }
        ensures options { result.options ≡ options }
        ensures changes { result.changes ≡ 0 }
    {
        let parent = Parent {
            position: Position::Elsewhere,
            body: 0,
        };
        TraverseCtx {
            scopes,
            options,
            parent,
            changes: 0,
        }
    }

    /// Counts one change; at the greatest u64 the count stays.
    pub fn notice_change(&mut self)
        ensures changes { self.new.changes ≡ min (self.old.changes + 1) (2 ^ 64 - 1) }
        ensures scopes { self.new.scopes ≡ self.old.scopes }
        ensures options { self.new.options ≡ self.old.options }
        ensures parent { self.new.parent ≡ self.old.parent }
    {
        self.changes = self.changes.saturating_add(1);
    }

    /// How many changes there were so far.
    pub fn changed(&self) -> u64
        ensures { result ≡ self.now.changes }
    {
        self.changes
    }

    /// Counts the references of an expression that goes out. A step is one reference.
    pub fn drop_expression<L: Ledger>(&mut self, expression: &Node, steps: &mut Steps<L>)
        requires reads { Contained is_read (references variant.Read expression.now) self.old.scopes.reads }
        requires writes { Contained is_write (references variant.Read expression.now) self.old.scopes.writes }
        ensures reads { FellBy is_read (references variant.Read expression.now) self.old.scopes.reads self.new.scopes.reads }
        ensures writes { FellBy is_write (references variant.Read expression.now) self.old.scopes.writes self.new.scopes.writes }
        ensures rest { self.new.scopes ≡ record self.old.scopes { reads = self.new.scopes.reads; writes = self.new.scopes.writes } }
        ensures steps { steps.new ≤ steps.old + length (references variant.Read expression.now) }
        ensures changes { self.new.changes ≡ self.old.changes }
        ensures options { self.new.options ≡ self.old.options }
        ensures parent { self.new.parent ≡ self.old.parent }
    {
        self.scopes.count_out(expression, steps);
    }

    /// Counts the references of a statement that goes out. A step is one reference.
    pub fn drop_statement<L: Ledger>(&mut self, statement: &Node, steps: &mut Steps<L>)
        requires reads { Contained is_read (references variant.Read statement.now) self.old.scopes.reads }
        requires writes { Contained is_write (references variant.Read statement.now) self.old.scopes.writes }
        ensures reads { FellBy is_read (references variant.Read statement.now) self.old.scopes.reads self.new.scopes.reads }
        ensures writes { FellBy is_write (references variant.Read statement.now) self.old.scopes.writes self.new.scopes.writes }
        ensures rest { self.new.scopes ≡ record self.old.scopes { reads = self.new.scopes.reads; writes = self.new.scopes.writes } }
        ensures steps { steps.new ≤ steps.old + length (references variant.Read statement.now) }
        ensures changes { self.new.changes ≡ self.old.changes }
        ensures options { self.new.options ≡ self.old.options }
        ensures parent { self.new.parent ≡ self.old.parent }
    {
        self.scopes.count_out(statement, steps);
    }

    /// Counts the references of a declarator that goes out. A step is one reference; the name that
    /// it declares is none.
    pub fn drop_variable_declarator<L: Ledger>(&mut self, declarator: &Node, steps: &mut Steps<L>)
        requires reads { Contained is_read (references variant.Read declarator.now) self.old.scopes.reads }
        requires writes { Contained is_write (references variant.Read declarator.now) self.old.scopes.writes }
        ensures reads { FellBy is_read (references variant.Read declarator.now) self.old.scopes.reads self.new.scopes.reads }
        ensures writes { FellBy is_write (references variant.Read declarator.now) self.old.scopes.writes self.new.scopes.writes }
        ensures rest { self.new.scopes ≡ record self.old.scopes { reads = self.new.scopes.reads; writes = self.new.scopes.writes } }
        ensures steps { steps.new ≤ steps.old + length (references variant.Read declarator.now) }
        ensures changes { self.new.changes ≡ self.old.changes }
        ensures options { self.new.options ≡ self.old.options }
        ensures parent { self.new.parent ≡ self.old.parent }
    {
        self.scopes.count_out(declarator, steps);
    }

    /// Puts another expression in the place of one, counts the references of the one that stood
    /// there out, and counts one change. References that moved from there into the new one must
    /// have been taken out of the place before.
    pub fn replace_expression(&mut self, slot: &mut Node, new: Node)
        requires reads { Contained is_read (references variant.Read slot.old) self.old.scopes.reads }
        requires writes { Contained is_write (references variant.Read slot.old) self.old.scopes.writes }
        ensures value { slot.new ≡ new }
        ensures reads { FellBy is_read (references variant.Read slot.old) self.old.scopes.reads self.new.scopes.reads }
        ensures writes { FellBy is_write (references variant.Read slot.old) self.old.scopes.writes self.new.scopes.writes }
        ensures rest { self.new.scopes ≡ record self.old.scopes { reads = self.new.scopes.reads; writes = self.new.scopes.writes } }
        ensures changes { self.new.changes ≡ min (self.old.changes + 1) (2 ^ 64 - 1) }
        ensures options { self.new.options ≡ self.old.options }
        ensures parent { self.new.parent ≡ self.old.parent }
    {
        let old = mem::replace(slot, new);
        count_out::<Brand>(&mut self.scopes, &old, Blank::new(1));
        self.notice_change();
    }
}
