//! A rule of one's own, from the trait to a proved pass over it: `true` becomes `!0`, and `false`
//! becomes `!1`. The row of that stands in `mini_rows`, so that its laws are cited.
#![tactic(auto)]

ghost use Rattle.std.specs.Prelude.{◌≡◌, is_some, unwrap_or, IfOk, OnOk};
ghost use Rattle.serde_json.specs.View.{view};
ghost use Rattle.mini_writer.specs.Fits.{Fits};
ghost use Rattle.mini_rows.specs.Spellings.{negated_digit as its_digit};
ghost use Rattle.mini_tree.specs.Rule.{Applied};
ghost use Rattle.mini_peephole.specs.AnyPasses.{no_facts, NothingLeft};
ghost use Rattle.mini_peephole.specs.Faithful.{FaithfulUnder};
ghost use Rattle.mini_example.specs.Booleans.{shortened, Gives, Rests};
ghost use Rattle.mini_example.specs.Lighter.{booleans_lighter};

use mini_model::{OutOfMemory, Position};
use mini_node::{Node, boolean, negation, numeric_literal};
use mini_peephole::{CompressOptions, Minified, MinifyError, minify_with};
use mini_tree::{Context, Rule};
use serde_json::Value;
use std::alloc::Global;

// `!0` or `!1`
fn negated_digit(alloc: Global, value: bool) -> Result<Node, OutOfMemory>
    ensures { IfOk result (λ w. w ≡ its_digit value) }
{
    match value {
        true => negation(alloc, numeric_literal(alloc, 0)),
        false => negation(alloc, numeric_literal(alloc, 1)),
    }
}

// Writes a boolean as a negated digit, and says whether the node is one.
fn shorten(alloc: Global, node: &mut Node) -> Result<bool, OutOfMemory>
    ensures tree { OnOk result (node.new ≡ unwrap_or (shortened node.old) node.old) }
    ensures said { IfOk result (λ changed. changed ≡ is_some (shortened node.old)) }
{
    match boolean(node) {
        Some(value) => {
            *node = negated_digit(alloc, value)?;
            Ok(true)
        }
        None => Ok(false),
    }
}

/// The rule: of each expression.
pub struct ShortenBooleans;

impl<C: Context> Rule<C> for ShortenBooleans {
    ghost gives = { λ o q. Gives };

    ghost rests = { λ o q. Rests };

    ghost lighter = { λ o q. booleans_lighter };

    #[tactic(auto, using(crate::proofs::Booleans::applied))]
    fn apply(
        &self,
        alloc: Global,
        node: &mut Node,
        place: Position,
        context: &mut C,
    ) -> Result<bool, OutOfMemory> {
        match place {
            Position::Expr(_) => Ok(shorten(alloc, node)?),
            _ => Ok(false),
        }
    }
}

/// A program in ESTree JSON without booleans: passes of the rule give a faithful answer, whose
/// frames rest on nothing that is known of bodies.
pub fn shorten_booleans(
    alloc: Global,
    program: &Value,
    options: &CompressOptions,
) -> Result<Minified, MinifyError>
    requires { Fits (view program.now) }
    ensures { IfOk result (λ m. FaithfulUnder no_facts (NothingLeft (λ q. Rests)) (view program.now) options.now m) }
{
    minify_with(&ShortenBooleans, alloc, program, options)
}
