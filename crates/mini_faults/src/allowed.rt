// Which productions stand in a goal, as they are or in parentheses.

ghost use Rattle.std.specs.Prelude.{◌≡◌, Some};
ghost use Rattle.mini_print.specs.Grammar as grammar;
ghost use Rattle.mini_print.specs.Grammar.{sort};
ghost use Rattle.mini_print.specs.Printed as printed;
ghost use Rattle.mini_grammar.specs.Views.{aim_of, goal_of, rule_of};

use mini_grammar::{Aim, Fixed, Goal, Rule, has_sort};
use mini_model::{AssignmentOperator, BinaryOperator};
use mini_tokens::{is_directive, is_reserved};

// Whether the name of a production may be a name (ECMA-262, "Identifiers", Early Errors), and the
// text of a directive may stand in quotes.
#[tactic(auto, using(crate::proofs::Wanted::fixed_allowed))]
fn is_allowed<'a>(rule: Rule<'a>) -> bool
    ensures { result ≡ grammar.is_allowed (rule_of rule.entry) }
{
    match rule {
        Rule::Reference(text)
        | Rule::BindingName(text)
        | Rule::Label(text)
        | Rule::BoundShorthand(text)
        | Rule::BoundDefault(text)
        | Rule::TargetShorthand(text)
        | Rule::TargetDefault(text)
        | Rule::ClassNamed(text)
        | Rule::ClassDeclared(text)
        | Rule::Shorthand(text)
        | Rule::ImportDefault(text)
        | Rule::ImportDefaultNames(text)
        | Rule::ImportDefaultNamespace(text)
        | Rule::ImportShort(text)
        | Rule::ExportShort(text)
        | Rule::ExportAs(text)
        | Rule::DeclaredClass(text)
        | Rule::DefaultClassNamed(text)
        | Rule::ArrowName(text)
        | Rule::ArrowNameBlock(text) => !is_reserved(text),
        Rule::Directive(text) => is_directive(text),
        _ => true,
    }
}

// What the parameters of a goal leave out.

fn leaves_out_without_in<'a>(rule: Rule<'a>) -> bool
    ensures { result ≡ grammar.excluded grammar.WithoutIn (rule_of rule.entry) }
{
    matches!(
        rule,
        Rule::Binary(BinaryOperator::In) | Rule::PrivateIn(_) | Rule::Fixed(Fixed::SpreadItem)
    )
}

fn leaves_out_callee<'a>(rule: Rule<'a>) -> bool
    ensures { result ≡ grammar.excluded grammar.Callee (rule_of rule.entry) }
{
    matches!(
        rule,
        Rule::Fixed(Fixed::Call)
            | Rule::Fixed(Fixed::Import)
            | Rule::Fixed(Fixed::SuperCall)
            | Rule::Fixed(Fixed::NewBare)
            | Rule::Fixed(Fixed::Chain)
            | Rule::Fixed(Fixed::SpreadItem)
    )
}

fn leaves_out_label_name<'a>(rule: Rule<'a>) -> bool
    ensures { result ≡ grammar.excluded grammar.LabelName (rule_of rule.entry) }
{
    match rule {
        Rule::PropertyName(text) => is_reserved(text),
        Rule::PrivateName(_) => true,
        _ => false,
    }
}

fn leaves_out_binding<'a>(rule: Rule<'a>) -> bool
    ensures { result ≡ grammar.excluded grammar.Binding (rule_of rule.entry) }
{
    matches!(
        rule,
        Rule::Fixed(Fixed::ObjectPattern) | Rule::Fixed(Fixed::ArrayPattern)
    )
}

fn leaves_out_bound_element<'a>(rule: Rule<'a>) -> bool
    ensures { result ≡ grammar.excluded grammar.BoundElement (rule_of rule.entry) }
{
    matches!(rule, Rule::Fixed(Fixed::Rest))
}

fn leaves_out_target<'a>(rule: Rule<'a>) -> bool
    ensures { result ≡ grammar.excluded grammar.Target (rule_of rule.entry) }
{
    matches!(
        rule,
        Rule::Assignment(AssignmentOperator::Assign)
            | Rule::Fixed(Fixed::PatternAssignment)
            | Rule::Fixed(Fixed::Array)
            | Rule::Fixed(Fixed::Object)
            | Rule::Fixed(Fixed::SpreadItem)
            | Rule::Fixed(Fixed::NewBare)
            | Rule::Fixed(Fixed::Chain)
    )
}

fn leaves_out_plain_element<'a>(rule: Rule<'a>) -> bool
    ensures { result ≡ grammar.excluded grammar.PlainElement (rule_of rule.entry) }
{
    matches!(
        rule,
        Rule::Fixed(Fixed::StaticElement) | Rule::Fixed(Fixed::StaticInit)
    )
}

fn leaves_out_key_name<'a>(rule: Rule<'a>) -> bool
    ensures { result ≡ grammar.excluded grammar.KeyName (rule_of rule.entry) }
{
    matches!(rule, Rule::PrivateKey(_))
}

fn leaves_out_module_name<'a>(rule: Rule<'a>) -> bool
    ensures { result ≡ grammar.excluded grammar.ModuleName (rule_of rule.entry) }
{
    matches!(rule, Rule::PrivateKey(_) | Rule::KeyNumber(_))
}

fn leaves_out_source_text<'a>(rule: Rule<'a>) -> bool
    ensures { result ≡ grammar.excluded grammar.SourceText (rule_of rule.entry) }
{
    matches!(
        rule,
        Rule::PrivateKey(_) | Rule::KeyNumber(_) | Rule::KeyWord(_)
    )
}

fn leaves_out_statement<'a>(rule: Rule<'a>) -> bool
    ensures { result ≡ grammar.excluded grammar.Statement (rule_of rule.entry) }
{
    matches!(
        rule,
        Rule::ImportBare(_)
            | Rule::Fixed(Fixed::ImportNames)
            | Rule::Fixed(Fixed::ImportNamespace)
            | Rule::ImportDefault(_)
            | Rule::ImportDefaultNames(_)
            | Rule::ImportDefaultNamespace(_)
            | Rule::Fixed(Fixed::ExportNames)
            | Rule::Fixed(Fixed::ExportFrom)
            | Rule::Fixed(Fixed::ExportAll)
            | Rule::Fixed(Fixed::ExportDeclared)
            | Rule::Fixed(Fixed::ExportValue)
            | Rule::Fixed(Fixed::ExportDefault)
    )
}

fn leaves_out_anything<'a>(rule: Rule<'a>) -> bool
    ensures { result ≡ grammar.excluded grammar.Anything (rule_of rule.entry) }
{
    matches!(rule, Rule::Fixed(Fixed::SpreadItem))
}

fn is_left_out<'a>(goal: Goal, rule: Rule<'a>) -> bool
    ensures { result ≡ grammar.excluded (goal_of goal) (rule_of rule.entry) }
{
    match goal {
        Goal::WithoutIn => leaves_out_without_in(rule),
        Goal::Callee => leaves_out_callee(rule),
        Goal::LabelName => leaves_out_label_name(rule),
        Goal::Binding => leaves_out_binding(rule),
        Goal::BoundElement => leaves_out_bound_element(rule),
        Goal::Target => leaves_out_target(rule),
        Goal::PlainElement => leaves_out_plain_element(rule),
        Goal::KeyName => leaves_out_key_name(rule),
        Goal::ModuleName => leaves_out_module_name(rule),
        Goal::SourceText => leaves_out_source_text(rule),
        Goal::Statement => leaves_out_statement(rule),
        Goal::Anything => leaves_out_anything(rule),
        _ => false,
    }
}

fn is_excluded<'a>(goal: Aim<'a>, rule: Rule<'a>) -> bool
    ensures { result ≡ grammar.excluded (aim_of goal.entry) (rule_of rule.entry) }
{
    match goal {
        Aim::Plain(goal) => is_left_out(goal, rule),
        Aim::DefaultOf(_, _) => false,
    }
}

fn is_of<'a>(goal: Aim<'a>, rule: Rule<'a>) -> bool
    ensures { result ≡ grammar.is_of (sort (aim_of goal.entry)) (rule_of rule.entry) }
{
    has_sort(goal, rule) && is_allowed(rule)
}

fn has<'a>(goal: Aim<'a>, rule: Rule<'a>) -> bool
    ensures { result ≡ grammar.has (aim_of goal.entry) (rule_of rule.entry) }
{
    is_of(goal, rule) && !is_excluded(goal, rule)
}

/// Whether a production stands in a goal, as it is or in parentheses.
pub fn is_wanted<'a>(goal: Aim<'a>, rule: Rule<'a>) -> bool
    ensures { result ≡ printed.is_wanted (aim_of goal.entry) (Some (rule_of rule.entry)) }
{
    is_of(goal, rule) && (has(Aim::Plain(Goal::Anything), rule) || has(goal, rule))
}
