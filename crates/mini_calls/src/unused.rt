//! Rewrites of names that nothing mentions, or that are read once.

ghost use Rattle.mini_model.specs.declared.place.Position.TheVariants.{Elsewhere, Expr, Stmt};
ghost use Rattle.mini_model.specs.declared.seat.Seat.{Seat};
ghost use Rattle.mini_model.specs.declared.seat.StmtSeat.{StmtSeat};
ghost use Rattle.mini_model.specs.Tree.{children, count, shape_of};
ghost use Rattle.mini_node.specs.Kinds.{is_listed as is_it_listed};
ghost use Rattle.mini_unused.specs.Calls.{Within, is_class, is_function, should_go};
ghost use Rattle.mini_unused.specs.RemoveUnusedDeclaration.{UnusedAt, list_at, allowed, open_in};
ghost use Rattle.mini_unused.specs.RemoveUnusedName.{Applied as AppliedOfRemoveUnusedName, switches_of};
ghost use Rattle.mini_unused.specs.SubstituteSingleUse.{Removed};
ghost use Rattle.mini_unused.specs.SubstituteCatchClause.{Applied as AppliedOfSubstituteCatchClause};
ghost use Rattle.mini_inside.specs.Holding.{Applied, AppliedInFunction};
ghost use Rattle.std.specs.Prelude.{IfOk, None, false, true, ◌+◌, ◌<◌, ◌≡◌, ◌^◌};

use crate::PeepholeOptimizations;
use mini_context::TraverseCtx;
use mini_tree::{CompressOptions, Node, OutOfMemory};
use std::alloc::Global;

impl PeepholeOptimizations {
    /// Drops or inlines a declaration of a block, or of the body of a function declaration. Where
    /// nothing mentions x, `let x = a();` becomes `a();`, `let x;` and `let x = 1;` become `;`, and
    /// `let x, y = b();` becomes `let y = b();`. The answer says whether a declaration changed; the
    /// only error is that memory runs out.
    pub fn remove_unused_declaration(
        &self,
        alloc: Global,
        node: &mut Node,
        context: &TraverseCtx,
    ) -> Result<bool, OutOfMemory>
        ensures { IfOk result (λ changed. (q : StmtSeat) → Applied (allowed context.now) (Stmt q) node.old node.new changed) }
    {
        mini_inside::remove_unused_declaration(alloc, node, context)
    }

    /// Drops or inlines a declaration of the body of an arrow function or of another function
    /// expression, whose parameters don't mention it: `() => { let x = a(); b(); }` becomes
    /// `() => { a(); b(); }`.
    pub fn remove_unused_in_arrow(
        &self,
        alloc: Global,
        node: &mut Node,
        context: &TraverseCtx,
    ) -> Result<bool, OutOfMemory>
        ensures { IfOk result (λ changed. (s : Seat) → Applied (allowed context.now) (Expr s) node.old node.new changed) }
    {
        mini_inside::remove_unused_in_arrow(alloc, node, context)
    }

    /// Drops or inlines a declaration of the body of a function that is no arrow function, whose
    /// name and parameters don't mention it: `function f(a) { let x = b(); return x + a; }` becomes
    /// `function f(a) { return b() + a; }`. The answer says whether a name went; the only error is
    /// that memory runs out.
    pub fn remove_unused_in_function(
        &self,
        alloc: Global,
        node: &mut Node,
        context: &TraverseCtx,
    ) -> Result<bool, OutOfMemory>
        ensures { IfOk result (λ changed. AppliedInFunction (allowed context.now) node.old node.new changed) }
    {
        mini_inside::remove_unused_in_function(alloc, node, context)
    }

    /// Drops or inlines a declaration of a module, of a static block of a class, of a block of a
    /// `try`, or of an exported function: `import "a"; const x = f(); g();` becomes
    /// `import "a"; f(); g();`. The answer says whether a name went; the only error is that memory
    /// runs out.
    pub fn remove_unused_in_module(
        &self,
        alloc: Global,
        node: &mut Node,
        context: &TraverseCtx,
    ) -> Result<bool, OutOfMemory>
        ensures { IfOk result (λ changed. Applied (allowed context.now) Elsewhere node.old node.new changed) }
    {
        mini_inside::remove_unused_in_module(alloc, node, context)
    }

    /// Inlines the names that a list of statements declares and reads once, given what stands
    /// outside the list: `let x = a(); return x + b;` becomes `; return a() + b;`, and
    /// `let a, x = b(); return x;` becomes `let a; return b();`. In the list no name is unused. The
    /// answer says whether one was inlined; the only error is that memory runs out.
    pub fn substitute_single_use(
        &self,
        alloc: Global,
        outside: &Node,
        list: &mut Node,
        context: &TraverseCtx,
    ) -> Result<bool, OutOfMemory>
        requires list { is_it_listed list.old ≡ true }
        requires used { UnusedAt (open_in outside.now (allowed context.now)) outside.now (children list.old) None }
        ensures { IfOk result (λ changed. Removed (open_in outside.now (allowed context.now)) outside.now list.old list.new changed) }
    {
        mini_unused::substitute_single_uses(alloc, outside, list, context)
    }

    /// Whether 72 would take the declarator at the second place of the declaration at the first, in
    /// a list of statements with what stands outside of them, if it stood in a declaration of its
    /// own: of `let x = a(), y = b(); c(y);` it would take `x = a()`, which leaves `a();`. Where a
    /// list stands outside of them, as that of the nodes above a list further inside a body, it
    /// takes those of `var`s alone.
    pub fn should_remove_unused_declarator(
        &self,
        outside: &Node,
        list: &Node,
        at: usize,
        which: usize,
        context: &TraverseCtx,
    ) -> bool
        requires statement { at < count (children list.now) }
        requires declarator { which < count (children (list_at (children list.now) at)) }
        requires fits { which + 1 < 2 ^ 64 }
        requires fits_too { at + 1 < 2 ^ 64 }
        ensures { result ≡ should_go (open_in outside.now (allowed context.now)) outside.now list.now at which }
    {
        mini_unused::should_remove_unused_declarator(outside, list, at, which, context)
    }

    /// Inlines the first name that a declarator of a list of statements reads and nothing else
    /// does: `let x = a(), y = x.b;` becomes `let y = a().b;`. Where the list stands further inside
    /// a body, only a `var`. The answer says whether there was one.
    pub fn substitute_within(&self, outside: &Node, list: &mut Node, context: &TraverseCtx) -> bool
        requires { is_it_listed list.old ≡ true }
        ensures { Within (open_in outside.now (allowed context.now)) outside.now list.old list.new result }
    {
        mini_unused::substitute_within(outside, list, context)
    }

    /// A function or class expression loses its name where nothing in it mentions that and the
    /// options let it go. The answer says whether it did.
    pub fn remove_unused_name(&self, node: &mut Node, options: CompressOptions) -> bool
        ensures { (s : Seat) → AppliedOfRemoveUnusedName (switches_of options) (Expr s) node.old node.new result }
    {
        mini_unused::remove_unused_name(node, options)
    }

    /// A function expression loses its name where nothing in it mentions that and the options let
    /// it go: `f(function g() {})` becomes `f(function () {})`. Any other expression stays. The
    /// answer says whether a name went.
    pub fn try_remove_name_from_functions(&self, node: &mut Node, options: CompressOptions) -> bool
        ensures function { is_function (shape_of node.old) ≡ true → (s : Seat) → AppliedOfRemoveUnusedName (switches_of options) (Expr s) node.old node.new result }
        ensures other { is_function (shape_of node.old) ≡ false → (node.new ≡ node.old) × (result ≡ false) }
    {
        mini_unused::try_remove_name_from_functions(node, options)
    }

    /// A class expression loses its name where nothing in it mentions that and the options let it
    /// go: `f(class C {})` becomes `f(class {})`. Any other expression stays. The answer says
    /// whether a name went.
    pub fn try_remove_name_from_classes(&self, node: &mut Node, options: CompressOptions) -> bool
        ensures class { is_class (shape_of node.old) ≡ true → (s : Seat) → AppliedOfRemoveUnusedName (switches_of options) (Expr s) node.old node.new result }
        ensures other { is_class (shape_of node.old) ≡ false → (node.new ≡ node.old) × (result ≡ false) }
    {
        mini_unused::try_remove_name_from_classes(node, options)
    }

    /// A `catch` loses the name of what it catches, where nothing in its body mentions that. The
    /// answer says whether it did.
    pub fn substitute_catch_clause(&self, node: &mut Node) -> bool
        ensures { AppliedOfSubstituteCatchClause Elsewhere node.old node.new result }
    {
        mini_unused::substitute_catch_clause(node)
    }
}
