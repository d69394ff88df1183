//! What rules share, what a rule is, and two of them as one.

ghost use Rattle.std.specs.Prelude.{◌≡◌, IfOk, OnOk};
ghost use Rattle.mini_model.specs.Tree.{Tree};
ghost use Rattle.mini_model.specs.declared.place.Position.{Position};
ghost use Rattle.mini_tree.specs.declared.options.CompressOptions.{CompressOptions};
ghost use Rattle.mini_tree.specs.Context.{KnowsSome, KnowsAsBefore, KnowsAnew, ByKnown};
ghost use Rattle.mini_tree.specs.Rule.{Applied, AreLighter, Either, Both};

use crate::options::CompressOptions;
use mini_model::{OutOfMemory, Position};
use mini_node::Node;
use std::alloc::Global;

/// What the calls of every rule share. It knows the options, and what it has seen of a program when
/// it last looked.
pub trait Context {
    /// The context's options are these, and this is the program at which it looked last.
    ghost knows: { Self → CompressOptions → Tree → Type 0 };

    /// The options under which rules work.
    fn options(&self) -> CompressOptions
        ensures { ByKnown knows self.now (λ o q. result ≡ o) };

    /// Looks at a program, so that the context knows this one. The only error is that memory runs
    /// out, and then the context is fit only to be dropped.
    fn refresh(&mut self, alloc: Global, program: &Node) -> Result<(), OutOfMemory>
        ensures { OnOk result (KnowsAnew knows self.old self.new program.now) };
}

/// What is done at a node in its place. A rule says what it may make of a tree there (`gives`), and
/// when it has nothing to do (`rests`): both under the options, and over the program at which its
/// context looked last.
pub trait Rule<C: Context> {
    /// Under these options, over this program and at this place, the rule may make the second tree
    /// of the first.
    ghost gives: { CompressOptions → Tree → Position → Tree → Tree → Type 0 };

    /// Under these options, over this program and at this place, the rule has nothing to do at the
    /// tree.
    ghost rests: { CompressOptions → Tree → Position → Tree → Type 0 };

    /// Makes something of the node, or of a part of it, in one step or several, and answers true;
    /// or leaves it, having nothing to do, and answers false. The context knows afterwards what it
    /// knew. The only error is that memory runs out, and then the node and the context are fit only
    /// to be dropped.
    fn apply(
        &self,
        alloc: Global,
        node: &mut Node,
        place: Position,
        context: &mut C,
    ) -> Result<bool, OutOfMemory>
        requires { KnowsSome C.knows context.old }
        ensures applied { IfOk result (λ changed. ByKnown C.knows context.old (λ o q. Applied (gives o q) (rests o q) place node.old node.new changed)) }
        ensures known { OnOk result (KnowsAsBefore C.knows context.old context.new) };

    /// Wherever in a tree the rule makes something of a node, the whole gets lighter.
    ghost lighter: { AreLighter gives };
}

/// Two rules as one: the second is applied where the first has nothing to do.
pub struct Then<A, B> {
    /// The rule that comes first.
    pub first: A,
    /// The rule that comes second.
    pub second: B,
}

impl<C: Context, A: Rule<C>, B: Rule<C>> Rule<C> for Then<A, B> {
    ghost use Rattle.mini_tree.specs.Lighter.{either_lighter};

    ghost gives = { λ o q. Either (A.gives o q) (B.gives o q) };

    ghost rests = { λ o q. Both (A.rests o q) (B.rests o q) };

    ghost lighter = { λ o q. either_lighter (A.gives o q) (B.gives o q) (A.lighter o q) (B.lighter o q) };

    fn apply(
        &self,
        alloc: Global,
        node: &mut Node,
        place: Position,
        context: &mut C,
    ) -> Result<bool, OutOfMemory> {
        if self.first.apply(alloc, node, place, context)? {
            return Ok(true);
        }
        let second = self.second.apply(alloc, node, place, context)?;
        Ok(second)
    }
}
