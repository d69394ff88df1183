//! What programs are made of: lists that own their items, texts in UTF-16 units, names, and why a
//! program is refused, and where; the texts of literals (ECMA-262, "Template Literal Lexical
//! Components"); and the plain form of a syntax tree (`specs/Tree.antt`), with the definitions that
//! speak of it: places, weight, terms and redexes.
//!
//! Of that form the plain parts are here as code: what a node is beside its children, the names
//! that stand in it, and the seat in which it stands.
#![tactic(auto)]

mod boxed;
mod code_point;
mod code_units;
mod cooking;
mod error;
mod escape;
mod identifier_name;
mod joining;
mod kind;
mod laws;
mod list;
mod literal_laws;
mod memory;
mod name;
mod number;
mod numeral_laws;
mod operator;
mod place;
mod seat;
mod shape;
mod text;

pub use boxed::BoxedText;
pub use cooking::cook;
pub use error::{MinifyError, Pointer, bad_shape, early_jump, early_name, too_deep, unsupported};
pub use escape::escape_string_for_template_literal;
pub use identifier_name::{IdentifierName, is_identifier_name};
pub use joining::concat_template_literal_raw;
pub use kind::{MetaPropertyKind, MethodDefinitionKind, PropertyKind, VariableDeclarationKind};
pub use laws::{bytes_of_units, names_are_paired, units_of_bytes};
pub use list::OwnedList;
pub use literal_laws::{
    escaped_cooks_to_itself, escaped_stays_inside, joined_cooks_to_joined, joined_stays_inside,
};
pub use memory::OutOfMemory;
pub use name::{Name, SymbolId};
pub use number::{decimal, equivalent_number};
pub use numeral_laws::{numbers_come_back, safe_number_is_exact, texts_tell_numbers_apart};
pub use operator::{
    AssignmentOperator, BinaryOperator, LogicalOperator, UnaryOperator, UpdateOperator,
};
pub use place::Position;
pub use seat::{Guard, Mix, Seat, StmtSeat};
pub use shape::Shape;

/// A text as ECMA-262 has it: a list of UTF-16 units (ECMA-262, "The String Type").
pub type Text = OwnedList<u16>;

/// A list of texts, as the directives of a program.
pub type TextList = OwnedList<Text>;

/// A list of numbers.
pub type Numbers = OwnedList<u32>;
