//! Rewrites of lists of statements, and what they are made with.

ghost use Rattle.mini_rows.specs.Lists as list;
ghost use Rattle.mini_stmt.specs.JoinLets.{DropsLexicals, JoinsLets, JoinsValues, marked};
ghost use Rattle.mini_stmt.specs.MinimizeStatements.{MinimizesList, switches_of};
ghost use Rattle.mini_stmt.specs.Terms as term;
ghost use Rattle.mini_stmt.specs.TurnLoopGuards.{TurnsLoop};
ghost use Rattle.std.specs.Prelude.{IfOk, not, ◌≡◌};

use crate::PeepholeOptimizations;
use mini_context::Scopes;
use mini_tree::{CompressOptions, Node, OutOfMemory};
use std::alloc::Global;

impl PeepholeOptimizations {
    /// A list of statements without what the rows of lists read: empty statements go, blocks are
    /// spread, neighbours are joined. The answer says whether it changed; the only error is that
    /// memory runs out, and then the list is fit only to be dropped.
    pub fn minimize_statements(
        &self,
        alloc: Global,
        options: CompressOptions,
        node: &mut Node,
    ) -> Result<bool, OutOfMemory>
        ensures { IfOk result (λ changed. MinimizesList (switches_of options) node.old node.new changed) }
    {
        mini_stmt::minimize_statements(alloc, options, node)
    }

    /// Each value that is written out and assigned to the last name of the `let` before it as an
    /// initializer in it, where the program lets the name be written. The answer says whether there
    /// was one; the only error is that memory runs out, and then the list is fit only to be
    /// dropped.
    pub fn join_lets(
        &self,
        alloc: Global,
        node: &mut Node,
        scopes: &Scopes,
    ) -> Result<bool, OutOfMemory>
        ensures { IfOk result (JoinsValues (marked scopes.now) node.old node.new) }
    {
        mini_stmt::join_lets(alloc, node, scopes)
    }

    /// What would initialize a class, a `let` or a `const` after the first statement that ends in a
    /// jump goes, and its names stay declared. The answer says whether there was one; the only
    /// error is that memory runs out, and then the list is fit only to be dropped.
    pub fn drop_lexicals(&self, alloc: Global, node: &mut Node) -> Result<bool, OutOfMemory>
        ensures { IfOk result (DropsLexicals node.old node.new) }
    {
        mini_stmt::drop_lexicals(alloc, node)
    }

    /// A list of statements without what either row of `let`s reads: values that are assigned go
    /// into the `let` before them, and where none does, what would initialize a class, a `let` or a
    /// `const` that never runs goes. The answer says whether the list changed; the only error is
    /// that memory runs out, and then the list is fit only to be dropped.
    pub fn minimize_lets(
        &self,
        alloc: Global,
        node: &mut Node,
        scopes: &Scopes,
    ) -> Result<bool, OutOfMemory>
        ensures { IfOk result (JoinsLets (marked scopes.now) node.old node.new) }
    {
        mini_stmt::minimize_lets(alloc, node, scopes)
    }

    /// The last guard in the body of a loop that goes on with the next turn takes in what follows
    /// it, where that nests no deeper than 500 nodes, or nothing where it is the body: where the
    /// body ends the loop goes on by itself (ECMA-262, "LoopContinues"). The answer says whether
    /// there was one; the only error is that memory runs out, and then the statement is fit only to
    /// be dropped.
    pub fn turn_loop_guard(&self, alloc: Global, node: &mut Node) -> Result<bool, OutOfMemory>
        ensures { IfOk result (λ changed. TurnsLoop node.old node.new changed) }
    {
        mini_stmt::turn_loop_guard(alloc, node)
    }

    /// `a, b`, of which each may be a sequence: the parts of both, in order.
    pub fn join_sequence(
        &self,
        alloc: Global,
        first: Node,
        second: Node,
    ) -> Result<Node, OutOfMemory>
        ensures { IfOk result (λ made. made ≡ term.joined first second) }
    {
        mini_stmt::join_sequence(alloc, first, second)
    }

    /// Whether the statement declares a name in the list round it that isn't hoisted through it: a
    /// `let`, a `const`, a class, a function, an import or an export.
    pub fn statement_cares_about_scope(&self, node: &Node) -> bool
        ensures { result ≡ not (list.is_unscoped node.now) }
    {
        mini_stmt::statement_cares_about_scope(node)
    }
}
