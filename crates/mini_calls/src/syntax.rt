//! Rewrites of spellings, of declarations and arrow functions, of keys, and of switches.

ghost use Rattle.mini_model.specs.Templates.{escaped};
ghost use Rattle.mini_model.specs.Tree.{node};
ghost use Rattle.mini_rows.specs.Cases as case;
ghost use Rattle.mini_syntax.specs.CompressAssignmentTargetProperty as row_of_compress_assignment_target_property;
ghost use Rattle.mini_syntax.specs.ConvertToDottedProperties.{written as written_of_convert_to_dotted_properties};
ghost use Rattle.mini_switch.specs.DropUnreachableSwitchCases.{written as written_of_drop_unreachable_switch_cases};
ghost use Rattle.mini_switch.specs.MinimizeSwitchStatements.{written as written_of_minimize_switch_statements};
ghost use Rattle.mini_switch.specs.MinimizeSwitchStatements as row_of_minimize_switch_statements;
ghost use Rattle.mini_syntax.specs.MinimizeAssignmentToUpdateExpression as stepping;
ghost use Rattle.mini_syntax.specs.SubstituteArrowExpression.{written as written_of_substitute_arrow_expression};
ghost use Rattle.mini_syntax.specs.SubstituteBindingProperty.{declared_bare, declares_brackets};
ghost use Rattle.mini_syntax.specs.SubstituteBoolean.{written};
ghost use Rattle.mini_syntax.specs.SubstituteLooseEqualsUndefined.{written as written_of_substitute_loose_equals_undefined};
ghost use Rattle.mini_syntax.specs.SubstituteObjectProperty.{is_written, written as written_of_substitute_object_property};
ghost use Rattle.mini_syntax.specs.SubstitutePropertyKey.{is_key_written, is_spelled, key_written, spelled};
ghost use Rattle.mini_syntax.specs.SubstitutePropertyKey as row;
ghost use Rattle.mini_syntax.specs.SubstituteReturnStatement.{written as written_of_substitute_return_statement};
ghost use Rattle.mini_syntax.specs.SubstituteSwapBinaryExpressions.{written as written_of_substitute_swap_binary_expressions};
ghost use Rattle.mini_syntax.specs.SubstituteTemplateLiteral.{written as written_of_substitute_template_literal};
ghost use Rattle.mini_syntax.specs.SubstituteTypeofUndefined.{written as written_of_substitute_typeof_undefined};
ghost use Rattle.mini_syntax.specs.SubstituteTypeofValue.{written as written_of_substitute_typeof_value};
ghost use Rattle.mini_syntax.specs.SubstituteVariableDeclaration.{Applied};
ghost use Rattle.mini_syntax.specs.SubstituteYieldExpression.{written as written_of_substitute_yield_expression};
ghost use Rattle.std.specs.Prelude.{IfOk, OnOk, is_some, unwrap_or, ◌≡◌};

use crate::PeepholeOptimizations;
use mini_model::Text;
use mini_tree::{Node, OutOfMemory, Position};
use std::alloc::Global;

impl PeepholeOptimizations {
    /// `true` becomes `!0`, and `false` becomes `!1`. The answer says whether it did; the only
    /// error is that memory runs out, and then the expression is fit only to be dropped.
    pub fn substitute_boolean(&self, alloc: Global, node: &mut Node) -> Result<bool, OutOfMemory>
        ensures tree { OnOk result (node.new ≡ unwrap_or (written node.old) node.old) }
        ensures said { IfOk result (λ changed. changed ≡ is_some (written node.old)) }
    {
        mini_syntax::substitute_boolean(alloc, node)
    }

    /// A template without expressions becomes its text, as abc in backticks becomes `"abc"`. The
    /// answer says whether it did; the only error is that memory runs out.
    pub fn substitute_template_literal(
        &self,
        alloc: Global,
        node: &mut Node,
    ) -> Result<bool, OutOfMemory>
        ensures tree { OnOk result (node.new ≡ unwrap_or (written_of_substitute_template_literal node.old) node.old) }
        ensures said { IfOk result (λ changed. changed ≡ is_some (written_of_substitute_template_literal node.old)) }
    {
        mini_syntax::substitute_template_literal(alloc, node)
    }

    /// `o["x"]` becomes `o.x`, and `o["1"]` becomes `o[1]`, also where the member is assigned to or
    /// updated. The answer says whether it did; the only error is that memory runs out, and then
    /// the expression is fit only to be dropped.
    pub fn convert_to_dotted_properties(
        &self,
        alloc: Global,
        node: &mut Node,
    ) -> Result<bool, OutOfMemory>
        ensures tree { OnOk result (node.new ≡ unwrap_or (written_of_convert_to_dotted_properties node.old) node.old) }
        ensures said { IfOk result (λ changed. changed ≡ is_some (written_of_convert_to_dotted_properties node.old)) }
    {
        mini_syntax::convert_to_dotted_properties(alloc, node)
    }

    /// `t -= 1` becomes `--t`, and `t -= -1` becomes `++t` (ECMA-262, "Update Expressions"),
    /// whatever t is. The answer says whether it did; the only error is that memory runs out, and
    /// then the expression is fit only to be dropped.
    pub fn minimize_assignment_to_update_expression(
        &self,
        alloc: Global,
        node: &mut Node,
    ) -> Result<bool, OutOfMemory>
        ensures tree { OnOk result (node.new ≡ unwrap_or (stepping.written node.old) node.old) }
        ensures said { IfOk result (λ changed. changed ≡ is_some (stepping.written node.old)) }
    {
        mini_syntax::minimize_assignment_to_update_expression(alloc, node)
    }

    /// `1 == b` becomes `b == 1`, where the left side of an equality is a value written out and the
    /// right side isn't. The answer says whether it did; the only error is that memory runs out,
    /// and then the expression is fit only to be dropped.
    pub fn substitute_swap_binary_expressions(
        &self,
        alloc: Global,
        node: &mut Node,
    ) -> Result<bool, OutOfMemory>
        ensures tree { OnOk result (node.new ≡ unwrap_or (written_of_substitute_swap_binary_expressions node.old) node.old) }
        ensures said { IfOk result (λ changed. changed ≡ is_some (written_of_substitute_swap_binary_expressions node.old)) }
    {
        mini_syntax::substitute_swap_binary_expressions(alloc, node)
    }

    /// `typeof x == "undefined"` becomes `typeof x > "u"`, of a name that no scope declares and any
    /// of the four equalities; of what `typeof` reads by its value it becomes `x === void 0`. The
    /// answer says whether it did; the only error is that memory runs out, and then the expression
    /// is fit only to be dropped.
    pub fn substitute_typeof_undefined(
        &self,
        alloc: Global,
        node: &mut Node,
    ) -> Result<bool, OutOfMemory>
        ensures tree { OnOk result (node.new ≡ unwrap_or (written_of_substitute_typeof_undefined node.old) node.old) }
        ensures said { IfOk result (λ changed. changed ≡ is_some (written_of_substitute_typeof_undefined node.old)) }
    {
        mini_syntax::substitute_typeof_undefined(alloc, node)
    }

    /// `typeof a == "undefined"` becomes `a === void 0`, of what `typeof` reads by its value and
    /// any of the four equalities (ECMA-262, "The typeof Operator"). The answer says whether it
    /// did; the only error is that memory runs out, and then the expression is fit only to be
    /// dropped.
    pub fn substitute_typeof_value(
        &self,
        alloc: Global,
        node: &mut Node,
    ) -> Result<bool, OutOfMemory>
        ensures tree { OnOk result (node.new ≡ unwrap_or (written_of_substitute_typeof_value node.old) node.old) }
        ensures said { IfOk result (λ changed. changed ≡ is_some (written_of_substitute_typeof_value node.old)) }
    {
        mini_syntax::substitute_typeof_value(alloc, node)
    }

    /// `undefined` or `void 0` in `==` and `!=` becomes `null`. The answer says whether it did; the
    /// only error is that memory runs out, and then the expression is fit only to be dropped.
    pub fn substitute_loose_equals_undefined(
        &self,
        alloc: Global,
        node: &mut Node,
    ) -> Result<bool, OutOfMemory>
        ensures tree { OnOk result (node.new ≡ unwrap_or (written_of_substitute_loose_equals_undefined node.old) node.old) }
        ensures said { IfOk result (λ changed. changed ≡ is_some (written_of_substitute_loose_equals_undefined node.old)) }
    {
        mini_syntax::substitute_loose_equals_undefined(alloc, node)
    }

    /// `return undefined;`, `return void 0;` and `return void a;`, where a has no effect, become
    /// `return;`. The answer says whether it did; the only error is that memory runs out, and then
    /// the statement is as it was.
    pub fn substitute_return_statement(
        &self,
        alloc: Global,
        node: &mut Node,
    ) -> Result<bool, OutOfMemory>
        ensures tree { OnOk result (node.new ≡ unwrap_or (written_of_substitute_return_statement node.old) node.old) }
        ensures said { IfOk result (λ changed. changed ≡ is_some (written_of_substitute_return_statement node.old)) }
    {
        mini_syntax::substitute_return_statement(alloc, node)
    }

    /// `yield void 0` becomes `yield`. The answer says whether it did; the only error is that
    /// memory runs out, and then the expression is fit only to be dropped.
    pub fn substitute_yield_expression(
        &self,
        alloc: Global,
        node: &mut Node,
    ) -> Result<bool, OutOfMemory>
        ensures tree { OnOk result (node.new ≡ unwrap_or (written_of_substitute_yield_expression node.old) node.old) }
        ensures said { IfOk result (λ changed. changed ≡ is_some (written_of_substitute_yield_expression node.old)) }
    {
        mini_syntax::substitute_yield_expression(alloc, node)
    }

    /// `() => { return a; }` becomes `() => a`. The answer says whether it did; the only error is
    /// that memory runs out.
    pub fn substitute_arrow_expression(
        &self,
        alloc: Global,
        node: &mut Node,
    ) -> Result<bool, OutOfMemory>
        ensures tree { OnOk result (node.new ≡ unwrap_or (written_of_substitute_arrow_expression node.old) node.old) }
        ensures said { IfOk result (λ changed. changed ≡ is_some (written_of_substitute_arrow_expression node.old)) }
    {
        mini_syntax::substitute_arrow_expression(alloc, node)
    }

    /// A `let` loses an initializer that is `undefined` or `void 0`, as a statement of a list or in
    /// the head of a `for`. The answer says whether one did.
    pub fn substitute_variable_declaration(&self, node: &mut Node, place: Position) -> bool
        ensures { Applied place node.old node.new result }
    {
        mini_syntax::substitute_variable_declaration(node, place)
    }

    /// Shortens the keys of an object literal: `{ ["x"]: a }` and `{ "x": a }` become `{ x: a }`,
    /// `{ "1": a }` becomes `{ 1: a }`, and `{ x: x }` becomes `{ x }`. A key `__proto__` stays,
    /// but of a method, a getter or a setter. The answer says whether anything changed; the only
    /// error is that memory runs out, and then the literal is fit only to be dropped.
    pub fn substitute_object_property(
        &self,
        alloc: Global,
        node: &mut Node,
    ) -> Result<bool, OutOfMemory>
        ensures tree { OnOk result (node.new ≡ written_of_substitute_object_property node.old) }
        ensures said { IfOk result (λ changed. changed ≡ is_written node.old) }
    {
        mini_syntax::substitute_object_property(alloc, node)
    }

    /// Shortens the key of a property of a pattern, of a method or of a field: `"x"` becomes `x`,
    /// and `"1"` becomes `1`. A key in brackets and a private name stay. The answer says whether it
    /// did.
    pub fn substitute_property_key(&self, alloc: Global, node: &mut Node) -> bool
        ensures tree { node.new ≡ spelled node.old }
        ensures said { result ≡ is_spelled node.old }
    {
        mini_syntax::substitute_property_key(alloc, node)
    }

    /// Shortens the key of a property of a pattern, of a method or of a field: `["x"]` and `"x"`
    /// become `x`, `[1]` and `"1"` become `1`. Brackets stay in a parameter, where
    /// `should_keep_as_computed_property`, and in a pattern that is declared, whose declaration
    /// drops them. The answer says whether anything changed; the only error is that memory runs
    /// out.
    pub fn substitute_key(&self, alloc: Global, node: &mut Node) -> Result<bool, OutOfMemory>
        ensures tree { OnOk result (node.new ≡ key_written node.old) }
        ensures said { IfOk result (λ changed. changed ≡ is_key_written node.old) }
    {
        mini_syntax::substitute_key(alloc, node)
    }

    /// Shortens the key of a property of a pattern that is assigned to: `[{ ["x"]: a } = b]`
    /// becomes `[{ x: a } = b]`. Brackets stay where `should_keep_as_computed_property`. The answer
    /// says whether anything changed; the only error is that memory runs out.
    pub fn substitute_assignment_target_property_property(
        &self,
        alloc: Global,
        node: &mut Node,
    ) -> Result<bool, OutOfMemory>
        ensures tree { OnOk result (node.new ≡ row.held_written node.old) }
        ensures said { IfOk result (λ changed. changed ≡ row.is_held_written node.old) }
    {
        mini_syntax::substitute_assignment_target_property_property(alloc, node)
    }

    /// Shortens the key of a method of a class: `["x"]() {}` and `"x"() {}` become `x() {}`.
    /// Brackets stay where `should_keep_as_computed_property`. The answer says whether anything
    /// changed; the only error is that memory runs out.
    pub fn substitute_method_definition(
        &self,
        alloc: Global,
        node: &mut Node,
    ) -> Result<bool, OutOfMemory>
        ensures tree { OnOk result (node.new ≡ row.held_written node.old) }
        ensures said { IfOk result (λ changed. changed ≡ row.is_held_written node.old) }
    {
        mini_syntax::substitute_method_definition(alloc, node)
    }

    /// Shortens the key of a field of a class: `["x"] = a` and `"x" = a` become `x = a`. Brackets
    /// stay where `should_keep_as_computed_property`. The answer says whether anything changed; the
    /// only error is that memory runs out.
    pub fn substitute_property_definition(
        &self,
        alloc: Global,
        node: &mut Node,
    ) -> Result<bool, OutOfMemory>
        ensures tree { OnOk result (node.new ≡ row.held_written node.old) }
        ensures said { IfOk result (λ changed. changed ≡ row.is_held_written node.old) }
    {
        mini_syntax::substitute_property_definition(alloc, node)
    }

    /// A property that is assigned to becomes the shorthand, as `x: x` becomes `x`, or its key is
    /// spelled otherwise, as of `"x": a` and `["x"]: a`. The answer says whether anything changed;
    /// the only error is that memory runs out, and then the property is fit only to be dropped.
    pub fn substitute_assignment_target_property(
        &self,
        alloc: Global,
        node: &mut Node,
    ) -> Result<bool, OutOfMemory>
        ensures tree { OnOk result (node.new ≡ row.target_written node.old) }
        ensures said { IfOk result (λ changed. changed ≡ row.is_target_written node.old) }
    {
        mini_syntax::substitute_assignment_target_property(alloc, node)
    }

    /// Drops the brackets of the first key in the pattern of a declarator or a `catch` that is a
    /// text or a whole number from 0: `let { ["x"]: a } = b` becomes `let { "x": a } = b`. The
    /// answer says whether there is one; the only error is that memory runs out.
    pub fn substitute_binding_property(
        &self,
        alloc: Global,
        node: &mut Node,
    ) -> Result<bool, OutOfMemory>
        ensures tree { OnOk result (node.new ≡ declared_bare node.old) }
        ensures said { IfOk result (λ changed. changed ≡ declares_brackets node.old) }
    {
        mini_syntax::substitute_binding_property(alloc, node)
    }

    /// A property of a pattern that is assigned to becomes the shorthand where its key is the name
    /// that is assigned to: `x: x` becomes `x`, and `x: x = d` becomes `x = d` (ECMA-262,
    /// "Destructuring Assignment", AssignmentProperty). The answer says whether it did; the only
    /// error is that memory runs out, and then the property is fit only to be dropped.
    pub fn try_compress_assignment_target_property(
        &self,
        alloc: Global,
        node: &mut Node,
    ) -> Result<bool, OutOfMemory>
        ensures tree { OnOk result (node.new ≡ row_of_compress_assignment_target_property.compressed node.old) }
        ensures said { IfOk result (λ changed. changed ≡ row_of_compress_assignment_target_property.is_doubled node.old) }
    {
        mini_syntax::try_compress_assignment_target_property(alloc, node)
    }

    /// A `switch` of one case becomes an `if`, or of `default` alone a block. The answer says
    /// whether it did; the only error is that memory runs out.
    pub fn minimize_switch_statement(
        &self,
        alloc: Global,
        node: &mut Node,
    ) -> Result<bool, OutOfMemory>
        ensures tree { OnOk result (node.new ≡ unwrap_or (written_of_minimize_switch_statements node.old) node.old) }
        ensures said { IfOk result (λ changed. changed ≡ is_some (written_of_minimize_switch_statements node.old)) }
    {
        mini_switch::minimize_switch_statement(alloc, node)
    }

    /// A `switch` over a value that is known keeps one case, with the statements that run:
    /// `switch (2) { case 1: a(); case 2: b(); }` becomes `switch (2) { case 2: b(); }`. The answer
    /// says whether cases went; the only error is that memory runs out.
    pub fn drop_unreachable_switch_cases(
        &self,
        alloc: Global,
        node: &mut Node,
    ) -> Result<bool, OutOfMemory>
        ensures tree { OnOk result (node.new ≡ unwrap_or (written_of_drop_unreachable_switch_cases node.old) node.old) }
        ensures said { IfOk result (λ changed. changed ≡ is_some (written_of_drop_unreachable_switch_cases node.old)) }
    {
        mini_switch::drop_unreachable_switch_cases(alloc, node)
    }

    /// The raw text of a template that cooks to this text: `\`, a backtick and `$` with a backslash
    /// before them, and a carriage return as `\r`. The only error is that memory runs out.
    pub fn escape_string_for_template_literal(
        &self,
        alloc: Global,
        value: &Text,
    ) -> Result<Text, OutOfMemory>
        ensures { IfOk result (λ raw. raw ≡ escaped value.now) }
    {
        mini_model::escape_string_for_template_literal(alloc, value)
    }

    /// Whether the statements of a case may stand in a branch or a block: it has no test, or one
    /// that writes a value out, and then nothing in it is scoped; and none but a last `break;`
    /// leaves it by a `break` without a label (ECMA-262, "The switch Statement").
    pub fn can_switch_case_be_inlined(&self, case: &Node) -> bool
        ensures { result ≡ row_of_minimize_switch_statements.can_be_inlined case.now }
    {
        mini_switch::can_switch_case_be_inlined(case)
    }
}
