// Which production a node has.

ghost use Rattle.std.specs.Prelude.{◌≡◌, [], ◌∷◌, Some, option_map, if◌then◌else◌, true, false, not};
ghost use Rattle.mini_model.specs.Tree.{Trees, shape_of, children, is_absent};
ghost use Rattle.mini_model.specs.declared.shape.Shape.TheVariants as shape;
ghost use Rattle.mini_model.specs.declared.kind.PropertyKind.TheVariants as kinds;
ghost use Rattle.mini_node.specs.Children.{trees_of, names_of};
ghost use Rattle.mini_print.specs.Printed as printed;
ghost use Rattle.mini_print.specs.Grammar as grammar;
ghost use Rattle.mini_grammar.specs.Firsts.{number_rule};
ghost use Rattle.mini_grammar.specs.Views.{rule_of, fixed_of, aim_of, goal_of};

use crate::grammar::{Aim, Fixed, Goal, Rule};
use crate::parts::{
    assignment_rule, assigns_first, declares_default, declares_first, element_rule,
    first_is_absent, first_is_reference, first_is_text, first_raw, first_spelling, first_word,
    fourth_word, has_body, has_default, is_one, is_repeated, rest_rule, second_generates,
    second_is_absent, third_has_items, third_is_absent,
};
use mini_model::{
    MetaPropertyKind, MethodDefinitionKind, Name, PropertyKind, Shape, TextList, UnaryOperator,
};
use mini_node::Node;

fn number_rule<'a>(value: i64) -> Rule<'a>
    ensures { rule_of result ≡ number_rule value }
{
    let size = value.unsigned_abs();
    if value >= 0 {
        Rule::NumberLiteral(size)
    } else {
        Rule::Unary(UnaryOperator::UnaryNegation)
    }
}

// The production of a node with a name.
fn named_rule<'a>(shape: &Shape, name: &'a Name) -> Option<Rule<'a>>
    ensures { (ts : Trees) → option_map rule_of result ≡ printed.rule_at shape.now (name.now ∷ []) ts }
{
    match shape {
        Shape::Identifier => Some(Rule::Reference(name.spelling.as_slice())),
        Shape::BindingIdentifier => Some(Rule::BindingName(name.spelling.as_slice())),
        _ => None,
    }
}

// ---- the production by the shape alone, as if each part were absent

fn function_rule<'a>(declaration: bool, generator: bool, directives: &TextList) -> Option<Rule<'a>>
    ensures { option_map rule_of result ≡ printed.rule_of (shape.Function declaration generator directives.now) [] }
{
    if !directives.as_slice().is_empty() {
        return None;
    }
    match (declaration, generator) {
        (false, false) => Some(Rule::Fixed(Fixed::FunctionExpression)),
        (true, false) => Some(Rule::Fixed(Fixed::FunctionDeclaration)),
        (false, true) => Some(Rule::Fixed(Fixed::GeneratorExpression)),
        (true, true) => Some(Rule::Fixed(Fixed::GeneratorDeclaration)),
    }
}

fn arrow_rule<'a>(directives: &TextList) -> Option<Rule<'a>>
    ensures { option_map rule_of result ≡ printed.rule_of (shape.ArrowFunctionExpression directives.now) [] }
{
    if directives.as_slice().is_empty() {
        Some(Rule::Fixed(Fixed::Arrow))
    } else {
        None
    }
}

fn method_rule<'a>(kind: MethodDefinitionKind, computed: bool) -> Option<Rule<'a>>
    ensures { option_map rule_of result ≡ printed.rule_of (shape.MethodDefinition kind computed false) [] }
{
    match (kind, computed) {
        (MethodDefinitionKind::Get, false) => Some(Rule::Fixed(Fixed::ClassGetter)),
        (MethodDefinitionKind::Get, true) => Some(Rule::Fixed(Fixed::ClassComputedGetter)),
        (MethodDefinitionKind::Set, false) => Some(Rule::Fixed(Fixed::ClassSetter)),
        (MethodDefinitionKind::Set, true) => Some(Rule::Fixed(Fixed::ClassComputedSetter)),
        (MethodDefinitionKind::Method, true) => Some(Rule::Fixed(Fixed::ClassComputedMethod)),
        (MethodDefinitionKind::Method | MethodDefinitionKind::Constructor, false) => Some(
            Rule::Fixed(Fixed::ClassMethod),
        ),
        (MethodDefinitionKind::Constructor, true) => None,
    }
}

fn init_rule<'a>(method: bool, shorthand: bool, computed: bool) -> Option<Rule<'a>>
    ensures { option_map rule_of result ≡ printed.rule_of (shape.ObjectProperty kinds.Init method shorthand computed) [] }
{
    match (method, shorthand, computed) {
        (true, false, false) => Some(Rule::Fixed(Fixed::MethodProperty)),
        (true, false, true) => Some(Rule::Fixed(Fixed::ComputedMethod)),
        (false, true, false) => Some(Rule::Shorthand(&[])),
        (false, false, false) => Some(Rule::Fixed(Fixed::KeyValue)),
        (false, false, true) => Some(Rule::Fixed(Fixed::Computed)),
        (true, true, _) | (false, true, true) => None,
    }
}

fn accessor_rule<'a>(
    getter: bool,
    method: bool,
    shorthand: bool,
    computed: bool,
) -> Option<Rule<'a>>
    ensures { option_map rule_of result ≡ printed.rule_of (shape.ObjectProperty (if getter then kinds.Get else kinds.Set) method shorthand computed) [] }
{
    if method || shorthand {
        return None;
    }
    match (getter, computed) {
        (true, false) => Some(Rule::Fixed(Fixed::Getter)),
        (true, true) => Some(Rule::Fixed(Fixed::ComputedGetter)),
        (false, false) => Some(Rule::Fixed(Fixed::Setter)),
        (false, true) => Some(Rule::Fixed(Fixed::ComputedSetter)),
    }
}

fn property_rule<'a>(
    kind: PropertyKind,
    method: bool,
    shorthand: bool,
    computed: bool,
) -> Option<Rule<'a>>
    ensures { option_map rule_of result ≡ printed.rule_of (shape.ObjectProperty kind method shorthand computed) [] }
{
    match kind {
        PropertyKind::Init => init_rule(method, shorthand, computed),
        PropertyKind::Get => accessor_rule(true, method, shorthand, computed),
        PropertyKind::Set => accessor_rule(false, method, shorthand, computed),
    }
}

// The production of a node without a name, by its shape: each name that the production takes from
// the node's parts is empty, and of two that its parts decide between it is the one.
fn shape_rule<'a>(shape: &'a Shape) -> Option<Rule<'a>>
    ensures { option_map rule_of result ≡ printed.rule_of shape.now [] }
{
    match shape {
        Shape::IdentifierName(text) => Some(Rule::PropertyName(text.as_slice())),
        Shape::NumericLiteral(value) => Some(number_rule(*value)),
        Shape::BigIntLiteral(value) => Some(Rule::BigIntLiteral(*value)),
        Shape::StringLiteral(text) => Some(Rule::TextLiteral(text.as_slice())),
        Shape::RegExpLiteral(pattern, flags) => Some(Rule::RegExpLiteral(
            pattern.text().as_slice(),
            flags.text().as_slice(),
        )),
        Shape::BooleanLiteral(true) => Some(Rule::Fixed(Fixed::True)),
        Shape::BooleanLiteral(false) => Some(Rule::Fixed(Fixed::False)),
        Shape::NullLiteral => Some(Rule::Fixed(Fixed::Null)),
        Shape::ThisExpression => Some(Rule::Fixed(Fixed::This)),
        Shape::ArrayExpression => Some(Rule::Fixed(Fixed::Array)),
        Shape::StaticMemberExpression(false) | Shape::PrivateFieldExpression(false) => Some(
            Rule::Fixed(Fixed::Member),
        ),
        Shape::StaticMemberExpression(true) | Shape::PrivateFieldExpression(true) => Some(
            Rule::Fixed(Fixed::OptionalMember),
        ),
        Shape::ComputedMemberExpression(false) => Some(Rule::Fixed(Fixed::Index)),
        Shape::ComputedMemberExpression(true) => Some(Rule::Fixed(Fixed::OptionalIndex)),
        Shape::CallExpression(false) => Some(Rule::Fixed(Fixed::Call)),
        Shape::CallExpression(true) => Some(Rule::Fixed(Fixed::OptionalCall)),
        Shape::NewExpression => Some(Rule::Fixed(Fixed::New)),
        Shape::ImportExpression => Some(Rule::Fixed(Fixed::Import)),
        Shape::UpdateExpression(operator, true) => Some(Rule::Prefix(*operator)),
        Shape::UpdateExpression(operator, false) => Some(Rule::Postfix(*operator)),
        Shape::UnaryExpression(operator) => Some(Rule::Unary(*operator)),
        Shape::BinaryExpression(operator) => Some(Rule::Binary(*operator)),
        Shape::LogicalExpression(operator) => Some(Rule::Logical(*operator)),
        Shape::ConditionalExpression => Some(Rule::Fixed(Fixed::Conditional)),
        Shape::AssignmentExpression(operator) => Some(Rule::Assignment(*operator)),
        Shape::SequenceExpression => Some(Rule::Fixed(Fixed::Sequence)),
        Shape::ArrowFunctionExpression(directives) => arrow_rule(directives),
        Shape::VariableDeclarator => Some(Rule::Fixed(Fixed::Declarator)),
        Shape::BlockStatement => Some(Rule::Fixed(Fixed::Block)),
        Shape::VariableDeclaration(kind) => Some(Rule::Variables(*kind)),
        Shape::EmptyStatement => Some(Rule::Fixed(Fixed::Empty)),
        Shape::ExpressionStatement => Some(Rule::Fixed(Fixed::ExpressionStatement)),
        Shape::IfStatement => Some(Rule::Fixed(Fixed::If)),
        Shape::DoWhileStatement => Some(Rule::Fixed(Fixed::DoWhile)),
        Shape::WhileStatement => Some(Rule::Fixed(Fixed::While)),
        Shape::ForStatement => Some(Rule::Fixed(Fixed::For)),
        Shape::ReturnStatement => Some(Rule::Fixed(Fixed::Return)),
        Shape::ThrowStatement => Some(Rule::Fixed(Fixed::Throw)),
        Shape::DebuggerStatement => Some(Rule::Fixed(Fixed::Debugger)),
        Shape::BreakStatement => Some(Rule::Fixed(Fixed::Break)),
        Shape::ContinueStatement => Some(Rule::Fixed(Fixed::Continue)),
        Shape::Function(declaration, generator, directives) => {
            function_rule(*declaration, *generator, directives)
        },
        Shape::FunctionBody => Some(Rule::Fixed(Fixed::FunctionBody)),
        Shape::YieldExpression(false) => Some(Rule::Fixed(Fixed::Yield)),
        Shape::YieldExpression(true) => Some(Rule::Fixed(Fixed::YieldFrom)),
        Shape::SuperStaticMemberExpression => Some(Rule::Fixed(Fixed::SuperMember)),
        Shape::SuperComputedMemberExpression => Some(Rule::Fixed(Fixed::SuperIndex)),
        Shape::SuperCallExpression => Some(Rule::Fixed(Fixed::SuperCall)),
        Shape::MetaProperty(MetaPropertyKind::NewTarget) => Some(Rule::Fixed(Fixed::NewTarget)),
        Shape::MetaProperty(MetaPropertyKind::ImportMeta) => Some(Rule::Fixed(Fixed::ImportMeta)),
        Shape::PrivateIdentifier(text) => Some(Rule::PrivateName(text.as_slice())),
        Shape::PrivateInExpression => Some(Rule::PrivateIn(&[])),
        Shape::LabeledStatement => Some(Rule::Label(&[])),
        Shape::SwitchStatement => Some(Rule::Fixed(Fixed::Switch)),
        Shape::SwitchCase => Some(Rule::Fixed(Fixed::Case)),
        Shape::TryStatement => Some(Rule::Fixed(Fixed::Try)),
        Shape::CatchClause => Some(Rule::Fixed(Fixed::CatchParam)),
        Shape::ObjectProperty(kind, method, shorthand, computed) => {
            property_rule(*kind, *method, *shorthand, *computed)
        },
        Shape::ForInStatement => Some(Rule::Fixed(Fixed::ForIn)),
        Shape::ForOfStatement => Some(Rule::Fixed(Fixed::ForOf)),
        Shape::ObjectPattern => Some(Rule::Fixed(Fixed::ObjectPattern)),
        Shape::ArrayPattern => Some(Rule::Fixed(Fixed::ArrayPattern)),
        Shape::RestElement => Some(Rule::Fixed(Fixed::Rest)),
        Shape::BindingProperty(false, false) => Some(Rule::Fixed(Fixed::BoundKeyValue)),
        Shape::BindingProperty(false, true) => Some(Rule::Fixed(Fixed::BoundComputed)),
        Shape::BindingProperty(true, false) => Some(Rule::BoundShorthand(&[])),
        Shape::ObjectExpression => Some(Rule::Fixed(Fixed::Object)),
        Shape::SpreadElement => Some(Rule::Fixed(Fixed::Spread)),
        Shape::TemplateLiteral => Some(Rule::Template(&[])),
        Shape::TemplateElement(false, raw, _) => Some(Rule::MiddlePiece(raw.text().as_slice())),
        Shape::TemplateElement(true, raw, _) => Some(Rule::TailPiece(raw.text().as_slice())),
        Shape::TaggedTemplateExpression => Some(Rule::Fixed(Fixed::TaggedTemplate)),
        Shape::ChainExpression => Some(Rule::Fixed(Fixed::Chain)),
        Shape::Class(false) => Some(Rule::Fixed(Fixed::ClassPlain)),
        Shape::Class(true) => Some(Rule::ClassDeclared(&[])),
        Shape::ClassBody => Some(Rule::Fixed(Fixed::ClassBody)),
        Shape::MethodDefinition(_, _, true) | Shape::PropertyDefinition(_, true) => Some(
            Rule::Fixed(Fixed::StaticElement),
        ),
        Shape::MethodDefinition(kind, computed, false) => method_rule(*kind, *computed),
        Shape::PropertyDefinition(false, false) => Some(Rule::Fixed(Fixed::Field)),
        Shape::PropertyDefinition(true, false) => Some(Rule::Fixed(Fixed::ComputedField)),
        Shape::StaticBlock => Some(Rule::Fixed(Fixed::StaticInit)),
        Shape::AssignmentPattern => Some(Rule::Fixed(Fixed::Defaulted)),
        Shape::ArrayAssignmentTarget => Some(Rule::Fixed(Fixed::ArrayTarget)),
        Shape::ObjectAssignmentTarget => Some(Rule::Fixed(Fixed::ObjectTarget)),
        Shape::AssignmentTargetPropertyIdentifier => Some(Rule::TargetShorthand(&[])),
        Shape::AssignmentTargetPropertyProperty(false) => Some(Rule::Fixed(Fixed::TargetKeyValue)),
        Shape::AssignmentTargetPropertyProperty(true) => Some(Rule::Fixed(Fixed::TargetComputed)),
        Shape::ImportDeclaration => Some(Rule::ImportBare(&[])),
        Shape::ImportSpecifier => Some(Rule::Fixed(Fixed::ImportAs)),
        Shape::ExportNamedDeclaration => Some(Rule::Fixed(Fixed::ExportDeclared)),
        Shape::ExportSpecifier => Some(Rule::Fixed(Fixed::ForwardAs)),
        Shape::ExportDefaultDeclaration => Some(Rule::Fixed(Fixed::ExportValue)),
        Shape::ExportAllDeclaration => Some(Rule::Fixed(Fixed::ExportAll)),
        Shape::Program(_, _)
        | Shape::Absent
        | Shape::Listed
        | Shape::InnerExpression
        | Shape::Super
        | Shape::Identifier
        | Shape::BindingIdentifier
        | Shape::BindingProperty(true, true)
        | Shape::ImportDefaultSpecifier
        | Shape::ImportNamespaceSpecifier => None,
    }
}

// ---- the productions that parts decide between

fn either<'a>(condition: bool, first: Fixed, second: Fixed) -> Rule<'a>
    ensures { rule_of result ≡ (if condition then fixed_of first else fixed_of second) }
{
    if condition {
        Rule::Fixed(first)
    } else {
        Rule::Fixed(second)
    }
}

fn class_rule<'a>(parts: &'a [Node]) -> Rule<'a>
    ensures { rule_of result ≡ printed.class_of (printed.first_is_absent (trees_of parts.now)) (printed.first_spelling (trees_of parts.now)) }
{
    if first_is_absent(parts) {
        Rule::Fixed(Fixed::ClassPlain)
    } else {
        Rule::ClassNamed(first_spelling(parts))
    }
}

fn declared_class_rule<'a>(parts: &'a [Node]) -> Rule<'a>
    ensures { rule_of result ≡ printed.declared_class_of (printed.first_is_absent (trees_of parts.now)) (printed.first_spelling (trees_of parts.now)) }
{
    if first_is_absent(parts) {
        Rule::Fixed(Fixed::DefaultClass)
    } else {
        Rule::ClassDeclared(first_spelling(parts))
    }
}

fn bound_rule<'a>(parts: &'a [Node]) -> Rule<'a>
    ensures { rule_of result ≡ printed.bound_of (printed.has_default (trees_of parts.now)) (printed.first_spelling (trees_of parts.now)) }
{
    let name = first_spelling(parts);
    if has_default(parts) {
        Rule::BoundDefault(name)
    } else {
        Rule::BoundShorthand(name)
    }
}

fn target_rule<'a>(parts: &'a [Node]) -> Rule<'a>
    ensures { rule_of result ≡ printed.target_of (printed.has_default (trees_of parts.now)) (printed.first_spelling (trees_of parts.now)) }
{
    let name = first_spelling(parts);
    if has_default(parts) {
        Rule::TargetDefault(name)
    } else {
        Rule::TargetShorthand(name)
    }
}

fn template_rule<'a>(parts: &'a [Node]) -> Rule<'a>
    ensures { rule_of result ≡ printed.template_of (printed.is_one (trees_of parts.now)) (printed.first_raw (trees_of parts.now)) }
{
    let raw = first_raw(parts);
    if is_one(parts) {
        Rule::WholeTemplate(raw)
    } else {
        Rule::Template(raw)
    }
}

fn import_item_rule<'a>(parts: &'a [Node]) -> Rule<'a>
    ensures { rule_of result ≡ printed.import_item_of (printed.is_repeated (trees_of parts.now)) (printed.first_spelling (trees_of parts.now)) }
{
    if is_repeated(parts) {
        Rule::ImportShort(first_spelling(parts))
    } else {
        Rule::Fixed(Fixed::ImportAs)
    }
}

fn for_in_rule<'a>(parts: &[Node]) -> Rule<'a>
    ensures { rule_of result ≡ printed.for_in_of (printed.declares_first (trees_of parts.now)) (printed.assigns_first (trees_of parts.now)) }
{
    match (declares_first(parts), assigns_first(parts)) {
        (true, _) => Rule::Fixed(Fixed::ForDeclaredIn),
        (false, true) => Rule::Fixed(Fixed::ForPatternIn),
        (false, false) => Rule::Fixed(Fixed::ForIn),
    }
}

fn for_of_rule<'a>(parts: &[Node]) -> Rule<'a>
    ensures { rule_of result ≡ printed.for_of_of (printed.declares_first (trees_of parts.now)) (printed.assigns_first (trees_of parts.now)) }
{
    match (declares_first(parts), assigns_first(parts)) {
        (true, _) => Rule::Fixed(Fixed::ForDeclaredOf),
        (false, true) => Rule::Fixed(Fixed::ForPatternOf),
        (false, false) => Rule::Fixed(Fixed::ForOf),
    }
}

// The production of an import, by its default, its namespace and its names.
fn import_rule<'a>(parts: &'a [Node]) -> Rule<'a>
    ensures { rule_of result ≡ printed.import_of (printed.first_is_absent (trees_of parts.now)) (is_absent (printed.part_at 1 (trees_of parts.now))) (not (printed.has_items (printed.part_at 2 (trees_of parts.now)))) (printed.first_spelling (trees_of parts.now)) (printed.spelling_of (printed.part_at 3 (trees_of parts.now))) }
{
    match (
        first_is_absent(parts),
        second_is_absent(parts),
        third_has_items(parts),
    ) {
        (true, true, false) => Rule::ImportBare(fourth_word(parts)),
        (true, true, true) => Rule::Fixed(Fixed::ImportNames),
        (true, false, _) => Rule::Fixed(Fixed::ImportNamespace),
        (false, true, false) => Rule::ImportDefault(first_spelling(parts)),
        (false, true, true) => Rule::ImportDefaultNames(first_spelling(parts)),
        (false, false, _) => Rule::ImportDefaultNamespace(first_spelling(parts)),
    }
}

// The production of an export, by its declaration and its module.
fn export_rule<'a>(parts: &[Node]) -> Rule<'a>
    ensures { rule_of result ≡ printed.export_of (printed.first_is_absent (trees_of parts.now)) (is_absent (printed.part_at 2 (trees_of parts.now))) }
{
    match (first_is_absent(parts), third_is_absent(parts)) {
        (true, true) => Rule::Fixed(Fixed::ExportNames),
        (true, false) => Rule::Fixed(Fixed::ExportFrom),
        (false, _) => Rule::Fixed(Fixed::ExportDeclared),
    }
}

// The production of what stands in the braces of an export, by its two names.
fn export_item_rule<'a>(parts: &'a [Node]) -> Rule<'a>
    ensures { rule_of result ≡ printed.export_item_of (printed.is_reference (printed.part_at 0 (trees_of parts.now))) (printed.is_repeated (trees_of parts.now)) (printed.is_text (printed.part_at 0 (trees_of parts.now))) (printed.spelling_of (printed.part_at 0 (trees_of parts.now))) }
{
    match (
        first_is_reference(parts),
        is_repeated(parts),
        first_is_text(parts),
    ) {
        (true, true, _) => Rule::ExportShort(first_word(parts)),
        (true, false, _) => Rule::ExportAs(first_word(parts)),
        (false, true, true) => Rule::ForwardText(first_word(parts)),
        (false, true, false) => Rule::ForwardName(first_word(parts)),
        (false, false, _) => Rule::Fixed(Fixed::ForwardAs),
    }
}

// ---- the production over its parts

// The same of a production that is always of the same text.
fn fixed_over<'a>(rule: Fixed, parts: &'a [Node]) -> Rule<'a>
    ensures { rule_of result ≡ printed.chosen (trees_of parts.now) (fixed_of rule) }
{
    match rule {
        Fixed::Arrow => either(has_body(parts), Fixed::ArrowBlock, Fixed::Arrow),
        Fixed::ClassPlain => class_rule(parts),
        Fixed::ClassMethod => either(
            second_generates(parts),
            Fixed::ClassGenerator,
            Fixed::ClassMethod,
        ),
        Fixed::ClassComputedMethod => either(
            second_generates(parts),
            Fixed::ClassComputedGenerator,
            Fixed::ClassComputedMethod,
        ),
        Fixed::Defaulted => element_rule(parts),
        Fixed::Rest => rest_rule(parts),
        Fixed::Yield => either(first_is_absent(parts), Fixed::YieldBare, Fixed::Yield),
        Fixed::For => either(declares_first(parts), Fixed::ForDeclared, Fixed::For),
        Fixed::ForIn => for_in_rule(parts),
        Fixed::ForOf => for_of_rule(parts),
        Fixed::MethodProperty => either(
            second_generates(parts),
            Fixed::GeneratorProperty,
            Fixed::MethodProperty,
        ),
        Fixed::ComputedMethod => either(
            second_generates(parts),
            Fixed::ComputedGenerator,
            Fixed::ComputedMethod,
        ),
        Fixed::Case => either(first_is_absent(parts), Fixed::DefaultCase, Fixed::Case),
        Fixed::CatchParam => either(first_is_absent(parts), Fixed::CatchBare, Fixed::CatchParam),
        Fixed::ImportAs => import_item_rule(parts),
        Fixed::ForwardAs => export_item_rule(parts),
        Fixed::ExportDeclared => export_rule(parts),
        Fixed::ExportValue => either(
            declares_default(parts),
            Fixed::ExportDefault,
            Fixed::ExportValue,
        ),
        _ => Rule::Fixed(rule),
    }
}

// The production over these parts of a node whose shape has this one.
fn over_parts<'a>(rule: Rule<'a>, parts: &'a [Node]) -> Rule<'a>
    ensures { rule_of result ≡ printed.chosen (trees_of parts.now) (rule_of rule.entry) }
{
    match rule {
        Rule::Fixed(rule) => fixed_over(rule, parts),
        Rule::Label(_) => Rule::Label(first_spelling(parts)),
        Rule::PrivateIn(_) => Rule::PrivateIn(first_spelling(parts)),
        Rule::BoundShorthand(_) => bound_rule(parts),
        Rule::Shorthand(_) => Rule::Shorthand(first_spelling(parts)),
        Rule::Template(_) => template_rule(parts),
        Rule::ClassDeclared(_) => declared_class_rule(parts),
        Rule::Assignment(operator) => assignment_rule(operator, parts),
        Rule::TargetShorthand(_) => target_rule(parts),
        Rule::ImportBare(_) => import_rule(parts),
        _ => rule,
    }
}

// The production of a node without a name.
fn nameless_rule<'a>(shape: &'a Shape, parts: &'a [Node]) -> Option<Rule<'a>>
    ensures { option_map rule_of result ≡ printed.rule_at shape.now [] (trees_of parts.now) }
{
    let rule = shape_rule(shape)?;
    Some(over_parts(rule, parts))
}

// The production in a goal of a node whose production elsewhere is this.

fn in_element<'a>(rule: Rule<'a>) -> Rule<'a>
    ensures { rule_of result ≡ printed.turned grammar.Element (rule_of rule.entry) }
{
    match rule {
        Rule::Fixed(Fixed::Spread) => Rule::Fixed(Fixed::SpreadItem),
        _ => rule,
    }
}

fn in_block_only<'a>(rule: Rule<'a>) -> Rule<'a>
    ensures { rule_of result ≡ printed.turned grammar.BlockOnly (rule_of rule.entry) }
{
    match rule {
        Rule::Fixed(Fixed::Block) => Rule::Fixed(Fixed::BlockPart),
        _ => rule,
    }
}

fn in_key_name<'a>(rule: Rule<'a>) -> Rule<'a>
    ensures { rule_of result ≡ printed.turned grammar.KeyName (rule_of rule.entry) }
{
    match rule {
        Rule::PropertyName(text) => Rule::KeyWord(text),
        Rule::TextLiteral(text) => Rule::KeyText(text),
        Rule::NumberLiteral(value) => Rule::KeyNumber(value),
        _ => rule,
    }
}

fn in_method_value<'a>(rule: Rule<'a>) -> Rule<'a>
    ensures { rule_of result ≡ printed.turned grammar.MethodValue (rule_of rule.entry) }
{
    match rule {
        Rule::Fixed(Fixed::FunctionExpression) => Rule::Fixed(Fixed::MethodFunction),
        _ => rule,
    }
}

fn in_generator_value<'a>(rule: Rule<'a>) -> Rule<'a>
    ensures { rule_of result ≡ printed.turned grammar.GeneratorValue (rule_of rule.entry) }
{
    match rule {
        Rule::Fixed(Fixed::GeneratorExpression) => Rule::Fixed(Fixed::GeneratorMethod),
        _ => rule,
    }
}

fn in_head_declaration<'a>(rule: Rule<'a>) -> Rule<'a>
    ensures { rule_of result ≡ printed.turned grammar.HeadDeclaration (rule_of rule.entry) }
{
    match rule {
        Rule::Variables(kind) => Rule::HeadVariables(kind),
        _ => rule,
    }
}

fn in_bound_property<'a>(rule: Rule<'a>) -> Rule<'a>
    ensures { rule_of result ≡ printed.turned grammar.BoundProperty (rule_of rule.entry) }
{
    match rule {
        Rule::Fixed(Fixed::Rest) => Rule::Fixed(Fixed::BoundRest),
        _ => rule,
    }
}

fn in_tag_template<'a>(rule: Rule<'a>) -> Rule<'a>
    ensures { rule_of result ≡ printed.turned grammar.TagTemplate (rule_of rule.entry) }
{
    match rule {
        Rule::WholeTemplate(text) => Rule::TagWhole(text),
        Rule::Template(text) => Rule::TagParts(text),
        _ => rule,
    }
}

fn in_first_link<'a>(rule: Rule<'a>) -> Rule<'a>
    ensures { rule_of result ≡ printed.turned grammar.FirstLink (rule_of rule.entry) }
{
    match rule {
        Rule::Fixed(Fixed::OptionalMember) => Rule::Fixed(Fixed::FirstMember),
        Rule::Fixed(Fixed::OptionalIndex) => Rule::Fixed(Fixed::FirstIndex),
        Rule::Fixed(Fixed::OptionalCall) => Rule::Fixed(Fixed::FirstCall),
        _ => rule,
    }
}

fn in_link<'a>(rule: Rule<'a>) -> Rule<'a>
    ensures { rule_of result ≡ printed.turned grammar.Link (rule_of rule.entry) }
{
    match rule {
        Rule::Fixed(Fixed::Member) => Rule::Fixed(Fixed::LinkMember),
        Rule::Fixed(Fixed::Index) => Rule::Fixed(Fixed::LinkIndex),
        Rule::Fixed(Fixed::Call) => Rule::Fixed(Fixed::LinkCall),
        _ => rule,
    }
}

fn in_class_key<'a>(rule: Rule<'a>) -> Rule<'a>
    ensures { rule_of result ≡ printed.turned grammar.ClassKey (rule_of rule.entry) }
{
    match rule {
        Rule::PropertyName(text) => Rule::KeyWord(text),
        Rule::TextLiteral(text) => Rule::KeyText(text),
        Rule::NumberLiteral(value) => Rule::KeyNumber(value),
        Rule::PrivateName(text) => Rule::PrivateKey(text),
        _ => rule,
    }
}

fn in_leading<'a>(rule: Rule<'a>) -> Rule<'a>
    ensures { rule_of result ≡ printed.turned grammar.Leading (rule_of rule.entry) }
{
    match rule {
        Rule::TextLiteral(text) => Rule::Directive(text),
        _ => rule,
    }
}

fn in_target_property<'a>(rule: Rule<'a>) -> Rule<'a>
    ensures { rule_of result ≡ printed.turned grammar.TargetProperty (rule_of rule.entry) }
{
    match rule {
        Rule::Fixed(Fixed::ValueRest) => Rule::Fixed(Fixed::TargetPropertyRest),
        _ => rule,
    }
}

fn in_source_text<'a>(rule: Rule<'a>) -> Rule<'a>
    ensures { rule_of result ≡ printed.turned grammar.SourceText (rule_of rule.entry) }
{
    match rule {
        Rule::TextLiteral(text) => Rule::KeyText(text),
        _ => rule,
    }
}

fn in_module_name<'a>(rule: Rule<'a>) -> Rule<'a>
    ensures { rule_of result ≡ printed.turned grammar.ModuleName (rule_of rule.entry) }
{
    match rule {
        Rule::TextLiteral(text) => Rule::KeyText(text),
        Rule::PropertyName(text) => Rule::KeyWord(text),
        _ => rule,
    }
}

fn in_exportable<'a>(rule: Rule<'a>) -> Rule<'a>
    ensures { rule_of result ≡ printed.turned grammar.Exportable (rule_of rule.entry) }
{
    match rule {
        Rule::Variables(kind) => Rule::DeclaredVariables(kind),
        Rule::Fixed(Fixed::FunctionDeclaration) => Rule::Fixed(Fixed::DeclaredFunction),
        Rule::Fixed(Fixed::GeneratorDeclaration) => Rule::Fixed(Fixed::DeclaredGenerator),
        Rule::ClassDeclared(text) => Rule::DeclaredClass(text),
        _ => rule,
    }
}

fn in_default_declared<'a>(rule: Rule<'a>) -> Rule<'a>
    ensures { rule_of result ≡ printed.turned grammar.DefaultDeclared (rule_of rule.entry) }
{
    match rule {
        Rule::Fixed(Fixed::FunctionDeclaration) => Rule::Fixed(Fixed::DefaultFunction),
        Rule::Fixed(Fixed::GeneratorDeclaration) => Rule::Fixed(Fixed::DefaultGenerator),
        Rule::ClassDeclared(text) => Rule::DefaultClassNamed(text),
        _ => rule,
    }
}

fn in_default<'a>(declared: bool, text: &'a [u16], rule: Rule<'a>) -> Rule<'a>
    ensures { rule_of result ≡ printed.turned (grammar.DefaultOf declared text.now) (rule_of rule.entry) }
{
    match rule {
        Rule::Fixed(Fixed::Defaulted) | Rule::Fixed(Fixed::ValueItem) => Rule::NamedDefault(
            declared, text,
        ),
        _ => rule,
    }
}

fn in_goal<'a>(goal: Goal, rule: Rule<'a>) -> Rule<'a>
    ensures { rule_of result ≡ printed.turned (goal_of goal) (rule_of rule.entry) }
{
    match goal {
        Goal::Element => in_element(rule),
        Goal::BlockOnly => in_block_only(rule),
        Goal::KeyName => in_key_name(rule),
        Goal::MethodValue => in_method_value(rule),
        Goal::GeneratorValue => in_generator_value(rule),
        Goal::HeadDeclaration => in_head_declaration(rule),
        Goal::BoundProperty => in_bound_property(rule),
        Goal::TagTemplate => in_tag_template(rule),
        Goal::FirstLink => in_first_link(rule),
        Goal::Link => in_link(rule),
        Goal::ClassKey => in_class_key(rule),
        Goal::Leading => in_leading(rule),
        Goal::TargetProperty => in_target_property(rule),
        Goal::SourceText => in_source_text(rule),
        Goal::ModuleName => in_module_name(rule),
        Goal::Exportable => in_exportable(rule),
        Goal::DefaultDeclared => in_default_declared(rule),
        _ => rule,
    }
}

fn turned<'a>(goal: Aim<'a>, rule: Rule<'a>) -> Rule<'a>
    ensures { rule_of result ≡ printed.turned (aim_of goal.entry) (rule_of rule.entry) }
{
    match goal {
        Aim::Plain(goal) => in_goal(goal, rule),
        Aim::DefaultOf(declared, text) => in_default(declared, text, rule),
    }
}

fn rule_at<'a>(node: &'a Node) -> Option<Rule<'a>>
    ensures { option_map rule_of result ≡ printed.rule_at (shape_of node.now) (names_of node.now) (children node.now) }
{
    match node.name() {
        Some(name) => named_rule(node.shape(), name),
        None => nameless_rule(node.shape(), node.parts()),
    }
}

/// The production of a node in a goal.
pub fn rule_in<'a>(goal: Aim<'a>, node: &'a Node) -> Option<Rule<'a>>
    ensures { option_map rule_of result ≡ printed.rule_in (aim_of goal.entry) (shape_of node.now) (names_of node.now) (children node.now) }
{
    match rule_at(node) {
        Some(rule) => Some(turned(goal, rule)),
        None => None,
    }
}
