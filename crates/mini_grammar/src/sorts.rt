// What kind of production a goal has, and of what kind a production is.

ghost use Rattle.std.specs.Prelude.{◌≡◌};
ghost use Rattle.mini_print.specs.Grammar.{sort, rule_sort, same_sort};
ghost use Rattle.mini_print.specs.Grammar as grammar;
ghost use Rattle.mini_grammar.specs.Sorts.{sort_of, number_of};
ghost use Rattle.mini_grammar.specs.Views.{aim_of, fixed_of, goal_of, rule_of};

use crate::grammar::{Aim, Fixed, Goal, Rule};
use crate::parts::{is_same_flag, is_same_text};

/// A kind of productions: what may stand where one of them may.
#[derive(Clone, Copy)]
pub enum Sort {
    /// An expression.
    Values,
    /// A name behind a dot, a label.
    Names,
    /// A name or a pattern that is declared.
    Bindings,
    /// A statement, a declaration, an item of a module.
    Statements,
    /// What a declaration declares.
    Declarators,
    /// A property of an object.
    Properties,
    /// The body of a function.
    Bodies,
    /// A clause of a `switch`.
    Cases,
    /// What stands behind `catch`.
    Catches,
    /// A block where no other statement stands.
    BlockParts,
    /// A property of a pattern that is declared.
    BoundProperties,
    /// A declaration in the head of a loop.
    HeadDeclarations,
    /// A method behind its name.
    Methods,
    /// A generator method behind its name.
    GeneratorMethods,
    /// The name of a property.
    KeyNames,
    /// What stands behind an expression in a template.
    TemplateRests,
    /// A template behind its tag.
    TagTemplates,
    /// The first link of a chain.
    FirstLinks,
    /// A link of a chain.
    Links,
    /// An element of a pattern that is declared, a parameter.
    BoundElements,
    /// The body of a class.
    ClassBodies,
    /// An element of a class.
    ClassElements,
    /// A directive.
    Leadings,
    /// A pattern that is assigned to.
    Patterns,
    /// An element of a pattern that is assigned to.
    TargetElements,
    /// A property of a pattern that is assigned to.
    TargetProperties,
    /// A declaration behind `export`.
    Declarations,
    /// A declaration behind `export default`.
    DefaultDeclarations,
    /// What stands in the braces of an import.
    ImportItems,
    /// What stands in the braces of an export.
    ExportItems,
    /// What stands in the braces of an export from a module.
    ForwardItems,
    /// The default of a property by a name alone.
    Defaults,
}

fn number_of(sort: Sort) -> u8
    ensures { result ≡ number_of sort }
{
    match sort {
        Sort::Values => 0,
        Sort::Names => 1,
        Sort::Bindings => 2,
        Sort::Statements => 3,
        Sort::Declarators => 4,
        Sort::Properties => 5,
        Sort::Bodies => 6,
        Sort::Cases => 7,
        Sort::Catches => 8,
        Sort::BlockParts => 9,
        Sort::BoundProperties => 10,
        Sort::HeadDeclarations => 11,
        Sort::Methods => 12,
        Sort::GeneratorMethods => 13,
        Sort::KeyNames => 14,
        Sort::TemplateRests => 15,
        Sort::TagTemplates => 16,
        Sort::FirstLinks => 17,
        Sort::Links => 18,
        Sort::BoundElements => 19,
        Sort::ClassBodies => 20,
        Sort::ClassElements => 21,
        Sort::Leadings => 22,
        Sort::Patterns => 23,
        Sort::TargetElements => 24,
        Sort::TargetProperties => 25,
        Sort::Declarations => 26,
        Sort::DefaultDeclarations => 27,
        Sort::ImportItems => 28,
        Sort::ExportItems => 29,
        Sort::ForwardItems => 30,
        Sort::Defaults => 31,
    }
}

fn goal_sort(goal: Goal) -> Sort
    ensures { result ≡ sort_of (sort (goal_of goal)) }
{
    match goal {
        Goal::Anything | Goal::WithoutIn | Goal::Callee | Goal::Element | Goal::Target =>
            Sort::Values,
        Goal::AfterDot | Goal::LabelName => Sort::Names,
        Goal::Binding | Goal::Bound => Sort::Bindings,
        Goal::Statement | Goal::ModuleItem => Sort::Statements,
        Goal::Declared | Goal::HeadDeclared => Sort::Declarators,
        Goal::Property => Sort::Properties,
        Goal::Body => Sort::Bodies,
        Goal::CaseItem => Sort::Cases,
        Goal::Catching => Sort::Catches,
        Goal::BlockOnly => Sort::BlockParts,
        Goal::BoundProperty => Sort::BoundProperties,
        Goal::HeadDeclaration => Sort::HeadDeclarations,
        Goal::MethodValue => Sort::Methods,
        Goal::GeneratorValue => Sort::GeneratorMethods,
        Goal::KeyName | Goal::ClassKey | Goal::SourceText | Goal::ModuleName => Sort::KeyNames,
        Goal::TemplateRest => Sort::TemplateRests,
        Goal::TagTemplate => Sort::TagTemplates,
        Goal::FirstLink => Sort::FirstLinks,
        Goal::Link => Sort::Links,
        Goal::Parameter | Goal::BoundElement => Sort::BoundElements,
        Goal::ClassBraces => Sort::ClassBodies,
        Goal::ClassElement | Goal::PlainElement => Sort::ClassElements,
        Goal::Leading => Sort::Leadings,
        Goal::TargetPattern => Sort::Patterns,
        Goal::TargetElement => Sort::TargetElements,
        Goal::TargetProperty => Sort::TargetProperties,
        Goal::Exportable => Sort::Declarations,
        Goal::DefaultDeclared => Sort::DefaultDeclarations,
        Goal::ImportItem => Sort::ImportItems,
        Goal::ExportItem => Sort::ExportItems,
        Goal::ForwardItem => Sort::ForwardItems,
    }
}

fn fixed_sort(rule: Fixed) -> Sort
    ensures { result ≡ sort_of (rule_sort (fixed_of rule)) }
{
    match rule {
        Fixed::ObjectPattern | Fixed::ArrayPattern => Sort::Bindings,
        Fixed::Block
        | Fixed::Empty
        | Fixed::ExpressionStatement
        | Fixed::If
        | Fixed::DoWhile
        | Fixed::While
        | Fixed::For
        | Fixed::Return
        | Fixed::Throw
        | Fixed::Debugger
        | Fixed::Break
        | Fixed::Continue => Sort::Statements,
        Fixed::FunctionDeclaration
        | Fixed::GeneratorDeclaration
        | Fixed::Switch
        | Fixed::Try
        | Fixed::ForIn
        | Fixed::ForOf
        | Fixed::ForDeclared
        | Fixed::ForDeclaredIn
        | Fixed::ForDeclaredOf
        | Fixed::ForPatternIn
        | Fixed::ForPatternOf
        | Fixed::ImportNames => Sort::Statements,
        Fixed::ImportNamespace
        | Fixed::ExportNames
        | Fixed::ExportFrom
        | Fixed::ExportAll
        | Fixed::ExportDeclared
        | Fixed::ExportValue
        | Fixed::ExportDefault => Sort::Statements,
        Fixed::Declarator => Sort::Declarators,
        Fixed::KeyValue
        | Fixed::Computed
        | Fixed::Spread
        | Fixed::MethodProperty
        | Fixed::Getter
        | Fixed::Setter
        | Fixed::GeneratorProperty
        | Fixed::ComputedMethod
        | Fixed::ComputedGetter
        | Fixed::ComputedSetter
        | Fixed::ComputedGenerator => Sort::Properties,
        Fixed::FunctionBody => Sort::Bodies,
        Fixed::Case | Fixed::DefaultCase => Sort::Cases,
        Fixed::CatchParam | Fixed::CatchBare => Sort::Catches,
        Fixed::BlockPart => Sort::BlockParts,
        Fixed::BoundKeyValue | Fixed::BoundComputed | Fixed::BoundRest => Sort::BoundProperties,
        Fixed::MethodFunction => Sort::Methods,
        Fixed::GeneratorMethod => Sort::GeneratorMethods,
        Fixed::FirstMember | Fixed::FirstIndex | Fixed::FirstCall => Sort::FirstLinks,
        Fixed::LinkMember
        | Fixed::LinkIndex
        | Fixed::LinkCall
        | Fixed::OptionalMember
        | Fixed::OptionalIndex
        | Fixed::OptionalCall => Sort::Links,
        Fixed::Rest | Fixed::Defaulted => Sort::BoundElements,
        Fixed::ClassBody => Sort::ClassBodies,
        Fixed::PatternItem | Fixed::ValueItem | Fixed::PatternRest | Fixed::ValueRest => {
            Sort::TargetElements
        }
        Fixed::TargetKeyValue | Fixed::TargetComputed | Fixed::TargetPropertyRest => {
            Sort::TargetProperties
        }
        Fixed::DefaultFunction | Fixed::DefaultGenerator | Fixed::DefaultClass => {
            Sort::DefaultDeclarations
        }
        Fixed::ClassMethod
        | Fixed::ClassComputedMethod
        | Fixed::ClassGenerator
        | Fixed::ClassComputedGenerator
        | Fixed::ClassGetter
        | Fixed::ClassComputedGetter
        | Fixed::ClassSetter
        | Fixed::ClassComputedSetter
        | Fixed::Field
        | Fixed::ComputedField
        | Fixed::StaticElement
        | Fixed::StaticInit => Sort::ClassElements,
        Fixed::ArrayTarget | Fixed::ObjectTarget => Sort::Patterns,
        Fixed::DeclaredFunction | Fixed::DeclaredGenerator => Sort::Declarations,
        Fixed::ImportAs => Sort::ImportItems,
        Fixed::ForwardAs => Sort::ForwardItems,
        Fixed::Null
        | Fixed::This
        | Fixed::True
        | Fixed::False
        | Fixed::Array
        | Fixed::Object
        | Fixed::SpreadItem
        | Fixed::Member
        | Fixed::Index
        | Fixed::New
        | Fixed::NewBare
        | Fixed::Call
        | Fixed::Import => Sort::Values,
        Fixed::Conditional
        | Fixed::Sequence
        | Fixed::Arrow
        | Fixed::ArrowBlock
        | Fixed::FunctionExpression
        | Fixed::GeneratorExpression
        | Fixed::Yield
        | Fixed::YieldFrom
        | Fixed::YieldBare
        | Fixed::SuperMember
        | Fixed::SuperIndex
        | Fixed::SuperCall => Sort::Values,
        Fixed::NewTarget
        | Fixed::ImportMeta
        | Fixed::TaggedTemplate
        | Fixed::Chain
        | Fixed::ClassPlain
        | Fixed::PatternAssignment => Sort::Values,
    }
}

fn sort_of<'a>(rule: Rule<'a>) -> Sort
    ensures { result ≡ sort_of (rule_sort (rule_of rule.entry)) }
{
    match rule {
        Rule::Fixed(rule) => fixed_sort(rule),
        Rule::Reference(_)
        | Rule::NumberLiteral(_)
        | Rule::BigIntLiteral(_)
        | Rule::TextLiteral(_)
        | Rule::RegExpLiteral(_, _)
        | Rule::Postfix(_)
        | Rule::Prefix(_)
        | Rule::Unary(_)
        | Rule::Binary(_)
        | Rule::Logical(_)
        | Rule::Assignment(_)
        | Rule::PrivateIn(_)
        | Rule::WholeTemplate(_)
        | Rule::Template(_)
        | Rule::ClassNamed(_)
        | Rule::ArrowName(_)
        | Rule::ArrowNameBlock(_) => Sort::Values,
        Rule::PropertyName(_) | Rule::PrivateName(_) => Sort::Names,
        Rule::BindingName(_) => Sort::Bindings,
        Rule::Variables(_)
        | Rule::Label(_)
        | Rule::ClassDeclared(_)
        | Rule::ImportBare(_)
        | Rule::ImportDefault(_)
        | Rule::ImportDefaultNames(_)
        | Rule::ImportDefaultNamespace(_) => Sort::Statements,
        Rule::Shorthand(_) => Sort::Properties,
        Rule::BoundShorthand(_) | Rule::BoundDefault(_) => Sort::BoundProperties,
        Rule::HeadVariables(_) => Sort::HeadDeclarations,
        Rule::KeyWord(_) | Rule::KeyText(_) | Rule::KeyNumber(_) | Rule::PrivateKey(_) =>
            Sort::KeyNames,
        Rule::MiddlePiece(_) | Rule::TailPiece(_) => Sort::TemplateRests,
        Rule::TagWhole(_) | Rule::TagParts(_) => Sort::TagTemplates,
        Rule::Directive(_) => Sort::Leadings,
        Rule::TargetShorthand(_) | Rule::TargetDefault(_) => Sort::TargetProperties,
        Rule::DeclaredVariables(_) | Rule::DeclaredClass(_) => Sort::Declarations,
        Rule::DefaultClassNamed(_) => Sort::DefaultDeclarations,
        Rule::ImportShort(_) => Sort::ImportItems,
        Rule::ExportShort(_) | Rule::ExportAs(_) => Sort::ExportItems,
        Rule::ForwardName(_) | Rule::ForwardText(_) => Sort::ForwardItems,
        Rule::NamedDefault(_, _) => Sort::Defaults,
    }
}

// Whether a production is of the kind of a goal.
#[tactic(auto, using(crate::proofs::Numbered::same_by))]
fn is_of_goal<'a>(goal: Goal, rule: Rule<'a>) -> bool
    ensures { result ≡ same_sort (sort (goal_of goal)) (rule_sort (rule_of rule.entry)) }
{
    number_of(goal_sort(goal)) == number_of(sort_of(rule))
}

fn is_default<'a>(declared: bool, text: &'a [u16], rule: Rule<'a>) -> bool
    ensures { result ≡ same_sort (grammar.DefaultsOf declared text.now) (rule_sort (rule_of rule.entry)) }
{
    match rule {
        Rule::NamedDefault(own, name) => is_same_flag(declared, own) && is_same_text(text, name),
        _ => false,
    }
}

/// Whether a production is of the kind that stands in a goal.
pub fn has_sort<'a>(goal: Aim<'a>, rule: Rule<'a>) -> bool
    ensures { result ≡ same_sort (sort (aim_of goal.entry)) (rule_sort (rule_of rule.entry)) }
{
    match goal {
        Aim::Plain(goal) => is_of_goal(goal, rule),
        Aim::DefaultOf(declared, text) => is_default(declared, text, rule),
    }
}
