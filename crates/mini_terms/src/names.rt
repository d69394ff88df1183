//! The names that no scope declares and whose values are known (ECMA-262, "Value Properties of the
//! Global Object").

ghost use Rattle.std.specs.Prelude.{◌≡◌, ◌||◌, codes};
ghost use Rattle.mini_model.specs.Weight.{same_text};
ghost use Rattle.mini_node.specs.Children.{names};
ghost use Rattle.mini_laws.specs.Naming.{kinds};
ghost use Rattle.mini_laws.specs.Expressions.{first_kind};
ghost use Rattle.mini_terms.specs.Kind.{is_undefined_name as is_it_undefined_name};
ghost use Rattle.mini_terms.specs.Effects.{ef_names};

use mini_model::Name;

// The units of `undefined`, of `NaN` and of `Infinity`.
const UNDEFINED: [u16; 9] = [117, 110, 100, 101, 102, 105, 110, 101, 100];

const NAN: [u16; 3] = [78, 97, 78];

const INFINITY: [u16; 8] = [73, 110, 102, 105, 110, 105, 116, 121];

// Whether a name is `undefined`, and no scope declares it.
#[tactic(auto, using(crate::proofs::ConstantNames::undefined_is, crate::proofs::ConstantNames::nameless_is))]
pub fn is_undefined_name(name: &Option<Name>) -> bool
    ensures { result ≡ is_it_undefined_name (first_kind (kinds (names name.now))) }
{
    match name {
        Some(name) => { name.symbol.is_none() && name.spelling.as_slice() == UNDEFINED.as_slice() }
        None => false,
    }
}

// Whether a name is spelled as a property of the global object that never changes.
fn is_constant(name: &Name) -> bool
    ensures { result ≡ (same_text name.now.spelling (codes "undefined") || (same_text name.now.spelling (codes "NaN") || same_text name.now.spelling (codes "Infinity"))) }
{
    let spelling = name.spelling.as_slice();
    spelling == UNDEFINED.as_slice()
        || spelling == NAN.as_slice()
        || spelling == INFINITY.as_slice()
}

// Whether reading a name has no effect: a scope declares it, or it never changes.
#[tactic(auto, using(crate::proofs::ConstantNames::constant_is))]
pub fn is_read_without_effect(name: &Option<Name>) -> bool
    ensures { result ≡ ef_names (names name.now) }
{
    match name {
        Some(name) => name.symbol.is_some() || is_constant(name),
        None => false,
    }
}
