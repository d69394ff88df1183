// The text of a program.

ghost use Rattle.std.specs.Prelude.{◌≡◌, ◌↔◌, true, IsTrue, None, OnOk, IfOk, IfErr};
ghost use Rattle.mini_model.specs.Tree.{children};
ghost use Rattle.mini_node.specs.Children.{trees_of};
ghost use Rattle.mini_print.specs.Text.{Splits, text_of};
ghost use Rattle.mini_print.specs.Compact.{SplitsCompactly, compact_text_of};
ghost use Rattle.mini_print.specs.Grammar as grammar;
ghost use Rattle.mini_print.specs.Groups as groups;
ghost use Rattle.mini_print.specs.Printed as printed;
ghost use Rattle.mini_print.specs.Printed.{lay_block, printers, printed_program, short_program};
ghost use Rattle.mini_print.specs.Unprintable as unprintable;
ghost use Rattle.mini_grammar.specs.Views.{goal_of};
ghost use Rattle.mini_tokens.specs.Spelling.{IsTold};
ghost use Rattle.mini_tokens.specs.Styles.{style_of};
ghost use Rattle.mini_printer.specs.Texts.{IsTextOf, IsRefusalOf, IsRefusedBefore, IsUnlaid, is_program, is_plain_list, has_none, is_one_list, is_laid, laid_program, first_children};

use crate::order::shown;
use crate::walk::write_block;
use mini_faults::{PrintError, are_printable, may_print, refuse_defects};
use mini_grammar::{Goal, Token, Tokens};
use mini_model::{OutOfMemory, Shape, Text, TextList};
use mini_node::Node;
use mini_places::undirect;
use mini_tokens::{
    Style, are_directives, are_lexical, are_told_in, compact_text_of, terminate, text_of,
};
use std::alloc::Global;

fn is_plain_list(node: &Node) -> bool
    ensures { result ≡ is_plain_list node.now }
{
    matches!(node.shape(), Shape::Listed) && node.name().is_none()
}

fn has_none(nodes: &[Node]) -> bool
    ensures { result ≡ has_none (trees_of nodes.now) }
{
    nodes.split_first().is_none()
}

fn is_one_list(parts: &[Node]) -> bool
    ensures { result ≡ is_one_list (trees_of parts.now) }
{
    match parts.split_first() {
        Some((list, more)) => is_plain_list(list) && has_none(more),
        None => false,
    }
}

// Whether a node is a program: a list of statements and of nothing else.
fn is_program(node: &Node) -> bool
    ensures { result ≡ is_program node.now }
{
    matches!(node.shape(), Shape::Program(_, _))
        && (node.name().is_none() && is_one_list(node.parts()))
}

// The statements of a program.
fn items_of<'a>(program: &'a Node) -> &'a [Node]
    ensures { trees_of result.now ≡ first_children (children program.now) }
{
    match program.parts().split_first() {
        Some((list, _)) => list.parts(),
        None => &[],
    }
}

fn items_goal(is_module: bool) -> Goal
    ensures { goal_of result ≡ groups.items_goal is_module }
{
    if is_module {
        Goal::ModuleItem
    } else {
        Goal::Statement
    }
}

// Whether the grammar has the tokens of a program whose statements are in the order of their text.
#[tactic(auto, using(crate::proofs::Whole::leading_are))]
fn is_laid(alloc: Global, program: &Node) -> Result<bool, OutOfMemory>
    ensures { IfOk result (λ laid. laid ≡ is_laid program.now) }
{
    match program.shape() {
        Shape::Program(is_module, directives) => {
            if are_directives(directives) {
                are_printable(alloc, items_goal(*is_module), items_of(program))
            } else {
                Ok(false)
            }
        }
        _ => Ok(false),
    }
}

// Directives, each with its semicolon.
#[tactic(auto, using(crate::proofs::Whole::directive_kept))]
fn write_directives<'a>(
    tokens: &mut Tokens<'a>,
    style: Style,
    directives: &'a TextList,
) -> Result<(), OutOfMemory>
    ensures { OnOk result (tokens.new ≡ lay_block grammar.Leading (printers (style_of style) (printed.directives directives.now)) tokens.old) }
{
    let texts = directives.as_slice();
    let mut left = texts.len();
    while left > 0 {
        left -= 1;
        terminate(tokens, style)?;
        tokens.push(Token::Quoted(texts[left].as_slice()))?;
    }
    Ok(())
}

// The tokens of a program whose statements are in the order of their text.
fn program_tokens<'a>(
    alloc: Global,
    style: Style,
    program: &'a Node,
) -> Result<Tokens<'a>, OutOfMemory>
    ensures { IfOk result (λ tokens. tokens ≡ laid_program (style_of style) program.now) }
{
    let mut tokens = Tokens::new(alloc);
    if let Shape::Program(is_module, directives) = program.shape() {
        write_block(
            &mut tokens,
            style,
            items_goal(*is_module),
            items_of(program),
        )?;
        undirect(&mut tokens)?;
        write_directives(&mut tokens, style, directives)?;
    }
    Ok(tokens)
}

// Whether a text has the tokens.
fn is_text<'a>(style: Style, tokens: &Tokens<'a>) -> bool
    ensures { IsTrue result ↔ IsTold (style_of style) tokens.now }
{
    are_lexical(tokens) && are_told_in(style, tokens)
}

// The same, which a text has.
fn lexical_tokens<'a>(
    alloc: Global,
    style: Style,
    program: &'a Node,
) -> Result<Tokens<'a>, PrintError>
    ensures exact { IfOk result (λ tokens. tokens ≡ laid_program (style_of style) program.now) }
    ensures printable { IfOk result (λ tokens. (is_laid program.now ≡ true) × IsTold (style_of style) (laid_program (style_of style) program.now)) }
    ensures refused { IfErr result (λ error. IsUnlaid (style_of style) program.now error) }
{
    if !is_laid(alloc, program)? {
        return Err(PrintError::Unprintable);
    }
    let tokens = program_tokens(alloc, style, program)?;
    if is_text(style, &tokens) {
        Ok(tokens)
    } else {
        Err(PrintError::Unprintable)
    }
}

// A program without a fault, its statements in the order of their text.
#[tactic(auto, using(crate::proofs::Whole::no_program, crate::proofs::Whole::tells_refuses))]
fn in_order(alloc: Global, program: Node) -> Result<Node, PrintError>
    ensures shown { IfOk result (λ made. made ≡ printed.shown program) }
    ensures whole { IfOk result (λ made. is_program program ≡ true) }
    ensures plain { IfOk result (λ made. unprintable.first_fault program ≡ None) }
    ensures refused { IfErr result (λ error. IsRefusedBefore program error) }
{
    refuse_defects(alloc, &program)?;
    if !may_print(&program) {
        return Err(PrintError::TooDeep);
    }
    if !is_program(&program) {
        return Err(PrintError::Unprintable);
    }
    Ok(shown(program)?)
}

/// The JavaScript text of a program, with each `;` and with one blank between any two tokens
/// (ECMA-262, 12 to 16).
///
/// However it is split into tokens and however these are grouped, they are those of this program
/// and of no other; numbers, symbols, and parentheses that the tree keeps count for nothing.
///
/// `Reserved` and `BadText` tell the first node, in preorder, that no text has; `TooDeep` says that
/// the program nests deeper than 1,000 levels, and `Unprintable` that no node is such a one and the
/// grammar has no text of the program, or that a regular expression that begins with a blank, or
/// with a `=` and a blank, stands right behind an operand, a word or a bracket that closes, where it
/// would be taken for a division.
#[tactic(auto, using(crate::proofs::Whole::program_tokens, crate::proofs::Whole::before_refuses, crate::proofs::Whole::unlaid_refuses, crate::proofs::Whole::text_of_one))]
pub fn print_program(alloc: Global, program: Node) -> Result<Text, PrintError>
    ensures exact { IfOk result (λ text. text ≡ text_of (printed_program program)) }
    ensures one { IfOk result (λ text. IsTextOf Splits program text) }
    ensures plain { IfOk result (λ text. unprintable.first_fault program ≡ None) }
    ensures refused { IfErr result (λ error. IsRefusalOf printed.Full program error) }
{
    let made = in_order(alloc, program)?;
    let tokens = lexical_tokens(alloc, Style::Full, &made)?;
    Ok(text_of(alloc, tokens)?)
}

/// The JavaScript text of a program, with no `;` that is inserted where it lacks (ECMA-262, 12.10),
/// no parentheses round the one name of an arrow function (15.3) and behind a `new` without
/// arguments (13.3.5), and with a blank only where two tokens would run together.
///
/// However it is split into tokens and however these are grouped, they are those of this program
/// and of no other.
///
/// `Reserved` and `BadText` tell the first node, in preorder, that no text has; `TooDeep` says that
/// the program nests deeper than 1,000 levels, and `Unprintable` that no node is such a one and the
/// grammar has no text of the program.
#[tactic(auto, using(crate::proofs::Whole::program_tokens, crate::proofs::Whole::before_refuses, crate::proofs::Whole::unlaid_refuses, crate::proofs::Whole::compact_of_one))]
pub fn print_compact(alloc: Global, program: Node) -> Result<Text, PrintError>
    ensures exact { IfOk result (λ text. text ≡ compact_text_of (short_program program)) }
    ensures one { IfOk result (λ text. IsTextOf SplitsCompactly program text) }
    ensures plain { IfOk result (λ text. unprintable.first_fault program ≡ None) }
    ensures refused { IfErr result (λ error. IsRefusalOf printed.Short program error) }
{
    let made = in_order(alloc, program)?;
    let tokens = lexical_tokens(alloc, Style::Short, &made)?;
    Ok(compact_text_of(alloc, tokens)?)
}
