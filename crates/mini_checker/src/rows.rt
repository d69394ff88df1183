//! The rows at the node to which a path leads: each makes the first of its forms that fits and is
//! lighter. The only error of each function is that memory runs out.

ghost use Rattle.std.specs.Prelude.{◌≡◌, IfOk};
ghost use Rattle.mini_log.specs.RowStep.{first_lighter, node_forms};
ghost use Rattle.mini_laws.specs.Value.{VariableSet};
ghost use Rattle.mini_checker.specs.Forms.{marked};
ghost use Rattle.mini_log.specs.declared.row.LogRow.TheVariants.{Row1, Row3, Row7, Row12, Row13, Row15, Row19, Row33, Row34, Row39, Row40, Row41, Row42, Row49, Row54, Row55, Row58, Row60, Row65, Row82};

use crate::lighter::lighter;
use crate::{choices, ifs, keys, known, spellings};
use mini_context::Scopes;
use mini_model::{OutOfMemory, Position};
use mini_node::Node;
use std::alloc::Global;

/// Row 1.
pub fn row_1(alloc: Global, place: Position, node: &Node) -> Result<Option<Node>, OutOfMemory>
    ensures { IfOk result (λ w. (W : VariableSet) → w ≡ first_lighter place node.now (node_forms W Row1 place node.now)) }
{
    match place {
        Position::Expr(seat) => {
            let made = known::folded_unary(alloc, seat, node)?;
            lighter(node, place, made, None)
        }
        _ => Ok(None),
    }
}

/// Row 3.
pub fn row_3(alloc: Global, place: Position, node: &Node) -> Result<Option<Node>, OutOfMemory>
    ensures { IfOk result (λ w. (W : VariableSet) → w ≡ first_lighter place node.now (node_forms W Row3 place node.now)) }
{
    match place {
        Position::Expr(seat) => {
            let made = known::folded_binary(alloc, seat, node)?;
            lighter(node, place, made, None)
        }
        _ => Ok(None),
    }
}

/// Row 7.
pub fn row_7(alloc: Global, place: Position, node: &Node) -> Result<Option<Node>, OutOfMemory>
    ensures { IfOk result (λ w. (W : VariableSet) → w ≡ first_lighter place node.now (node_forms W Row7 place node.now)) }
{
    match place {
        Position::Expr(seat) => {
            let made = known::behind_nothing(alloc, seat, node)?;
            let rest = lighter(node, place, made, None)?;
            let made = known::before_nothing(alloc, seat, node)?;
            lighter(node, place, made, rest)
        }
        _ => Ok(None),
    }
}

/// Row 12.
pub fn row_12(alloc: Global, place: Position, node: &Node) -> Result<Option<Node>, OutOfMemory>
    ensures { IfOk result (λ w. (W : VariableSet) → w ≡ first_lighter place node.now (node_forms W Row12 place node.now)) }
{
    match place {
        Position::Expr(seat) => {
            let made = known::stopped(alloc, false, seat, node)?;
            lighter(node, place, made, None)
        }
        _ => Ok(None),
    }
}

/// Row 13.
pub fn row_13(alloc: Global, place: Position, node: &Node) -> Result<Option<Node>, OutOfMemory>
    ensures { IfOk result (λ w. (W : VariableSet) → w ≡ first_lighter place node.now (node_forms W Row13 place node.now)) }
{
    match place {
        Position::Expr(seat) => {
            let made = known::both(alloc, false, node)?;
            let rest = lighter(node, place, made, None)?;
            let made = known::passed(alloc, false, seat, node)?;
            lighter(node, place, made, rest)
        }
        _ => Ok(None),
    }
}

/// Row 15.
pub fn row_15(alloc: Global, place: Position, node: &Node) -> Result<Option<Node>, OutOfMemory>
    ensures { IfOk result (λ w. (W : VariableSet) → w ≡ first_lighter place node.now (node_forms W Row15 place node.now)) }
{
    match place {
        Position::Expr(seat) => {
            let made = known::stopped(alloc, true, seat, node)?;
            let rest = lighter(node, place, made, None)?;
            let made = known::both(alloc, true, node)?;
            let rest = lighter(node, place, made, rest)?;
            let made = known::passed(alloc, true, seat, node)?;
            lighter(node, place, made, rest)
        }
        _ => Ok(None),
    }
}

/// Row 39.
pub fn row_39(alloc: Global, place: Position, node: &Node) -> Result<Option<Node>, OutOfMemory>
    ensures { IfOk result (λ w. (W : VariableSet) → w ≡ first_lighter place node.now (node_forms W Row39 place node.now)) }
{
    match place {
        Position::Expr(_) => {
            let made = choices::rotated(alloc, node)?;
            lighter(node, place, made, None)
        }
        _ => Ok(None),
    }
}

/// Row 40.
pub fn row_40(alloc: Global, place: Position, node: &Node) -> Result<Option<Node>, OutOfMemory>
    ensures { IfOk result (λ w. (W : VariableSet) → w ≡ first_lighter place node.now (node_forms W Row40 place node.now)) }
{
    match place {
        Position::Expr(_) => {
            let made = choices::swapped_equal(alloc, node)?;
            let rest = lighter(node, place, made, None)?;
            let made = choices::swapped(alloc, node)?;
            lighter(node, place, made, rest)
        }
        _ => Ok(None),
    }
}

/// Row 41.
pub fn row_41(alloc: Global, place: Position, node: &Node) -> Result<Option<Node>, OutOfMemory>
    ensures { IfOk result (λ w. (W : VariableSet) → w ≡ first_lighter place node.now (node_forms W Row41 place node.now)) }
{
    match place {
        Position::Expr(_) => {
            let made = choices::own_alternate(alloc, node)?;
            let rest = lighter(node, place, made, None)?;
            let made = choices::own_consequent(alloc, node)?;
            lighter(node, place, made, rest)
        }
        _ => Ok(None),
    }
}

/// Row 42.
pub fn row_42(alloc: Global, place: Position, node: &Node) -> Result<Option<Node>, OutOfMemory>
    ensures { IfOk result (λ w. (W : VariableSet) → w ≡ first_lighter place node.now (node_forms W Row42 place node.now)) }
{
    match place {
        Position::Expr(_) => {
            let made = choices::same_consequent(alloc, node)?;
            let rest = lighter(node, place, made, None)?;
            let made = choices::same_alternate(alloc, node)?;
            lighter(node, place, made, rest)
        }
        _ => Ok(None),
    }
}

/// Row 49.
pub fn row_49(alloc: Global, place: Position, node: &Node) -> Result<Option<Node>, OutOfMemory>
    ensures { IfOk result (λ w. (W : VariableSet) → w ≡ first_lighter place node.now (node_forms W Row49 place node.now)) }
{
    match place {
        Position::Expr(seat) => {
            let made = known::both_branches(alloc, node)?;
            let rest = lighter(node, place, made, None)?;
            let made = known::one_branch(alloc, seat, node)?;
            lighter(node, place, made, rest)
        }
        _ => Ok(None),
    }
}

/// Row 54.
pub fn row_54(alloc: Global, place: Position, node: &Node) -> Result<Option<Node>, OutOfMemory>
    ensures { IfOk result (λ w. (W : VariableSet) → w ≡ first_lighter place node.now (node_forms W Row54 place node.now)) }
{
    match place {
        Position::Expr(_) => {
            let made = spellings::turned(alloc, node)?;
            lighter(node, place, made, None)
        }
        _ => Ok(None),
    }
}

/// Row 55.
pub fn row_55(alloc: Global, place: Position, node: &Node) -> Result<Option<Node>, OutOfMemory>
    ensures { IfOk result (λ w. (W : VariableSet) → w ≡ first_lighter place node.now (node_forms W Row55 place node.now)) }
{
    match place {
        Position::Expr(_) => {
            let made = spellings::compared(alloc, node)?;
            let rest = lighter(node, place, made, None)?;
            let made = spellings::ordered(alloc, node)?;
            lighter(node, place, made, rest)
        }
        _ => Ok(None),
    }
}

/// Row 58.
pub fn row_58(alloc: Global, place: Position, node: &Node) -> Result<Option<Node>, OutOfMemory>
    ensures { IfOk result (λ w. (W : VariableSet) → w ≡ first_lighter place node.now (node_forms W Row58 place node.now)) }
{
    match place {
        Position::Expr(_) => {
            let made = spellings::null_right(alloc, node)?;
            let rest = lighter(node, place, made, None)?;
            let made = spellings::null_left(alloc, node)?;
            lighter(node, place, made, rest)
        }
        _ => Ok(None),
    }
}

/// Row 65.
pub fn row_65(alloc: Global, place: Position, node: &Node) -> Result<Option<Node>, OutOfMemory>
    ensures { IfOk result (λ w. (W : VariableSet) → w ≡ first_lighter place node.now (node_forms W Row65 place node.now)) }
{
    match place {
        Position::Expr(_) => {
            let made = spellings::spelled(alloc, node)?;
            lighter(node, place, made, None)
        }
        _ => Ok(None),
    }
}

/// Row 19.
pub fn row_19(alloc: Global, place: Position, node: &Node) -> Result<Option<Node>, OutOfMemory>
    ensures { IfOk result (λ w. (W : VariableSet) → w ≡ first_lighter place node.now (node_forms W Row19 place node.now)) }
{
    match place {
        Position::Expr(_) => {
            let made = keys::untemplated(alloc, node)?;
            lighter(node, place, made, None)
        }
        _ => Ok(None),
    }
}

/// Row 33.
pub fn row_33(alloc: Global, place: Position, node: &Node) -> Result<Option<Node>, OutOfMemory>
    ensures { IfOk result (λ w. (W : VariableSet) → w ≡ first_lighter place node.now (node_forms W Row33 place node.now)) }
{
    match place {
        Position::Expr(_) => {
            let made = keys::dotted_update(alloc, node)?;
            let rest = lighter(node, place, made, None)?;
            let made = keys::dotted_target(alloc, node)?;
            let rest = lighter(node, place, made, rest)?;
            let made = keys::dotted(alloc, node)?;
            lighter(node, place, made, rest)
        }
        _ => Ok(None),
    }
}

/// Row 34.
pub fn row_34(
    alloc: Global,
    scopes: &Scopes,
    place: Position,
    node: &Node,
) -> Result<Option<Node>, OutOfMemory>
    ensures { IfOk result (λ w. w ≡ first_lighter place node.now (node_forms (marked scopes.now.writable) Row34 place node.now)) }
{
    match place {
        Position::Expr(_) => {
            let made = keys::combined(alloc, scopes, node)?;
            lighter(node, place, made, None)
        }
        _ => Ok(None),
    }
}

/// Row 82.
pub fn row_82(alloc: Global, place: Position, node: &Node) -> Result<Option<Node>, OutOfMemory>
    ensures { IfOk result (λ w. (W : VariableSet) → w ≡ first_lighter place node.now (node_forms W Row82 place node.now)) }
{
    match place {
        Position::Stmt(_) => {
            let made = ifs::else_disjoined(alloc, node)?;
            let rest = lighter(node, place, made, None)?;
            let made = ifs::else_conjoined(alloc, node)?;
            let rest = lighter(node, place, made, rest)?;
            let made = choices::conjoined(alloc, node)?;
            let rest = lighter(node, place, made, rest)?;
            let made = ifs::disjoined(alloc, node)?;
            let rest = lighter(node, place, made, rest)?;
            let made = choices::chosen(alloc, node)?;
            lighter(node, place, made, rest)
        }
        _ => Ok(None),
    }
}

/// Row 60.
pub fn row_60(alloc: Global, place: Position, node: &Node) -> Result<Option<Node>, OutOfMemory>
    ensures { IfOk result (λ w. (W : VariableSet) → w ≡ first_lighter place node.now (node_forms W Row60 place node.now)) }
{
    match place {
        Position::Expr(_) => {
            let made = spellings::bare_yield(alloc, node)?;
            lighter(node, place, made, None)
        }
        Position::Stmt(_) => {
            let made = spellings::bare_return(alloc, node)?;
            lighter(node, place, made, None)
        }
        _ => Ok(None),
    }
}
