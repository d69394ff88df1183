//! That what is known of an expression is so. Each function's contract is a law, and its body is
//! empty.

ghost use Rattle.mini_terms.specs.Constant.{ConstantIsConst, ConstantTruth};
ghost use Rattle.mini_terms.specs.Folds.{GoesOnSame, StopsSame, DoesNothing};
ghost use Rattle.mini_terms.specs.Int32.{Int32Sound};
ghost use Rattle.mini_terms.specs.Reading.{ReadByValue, SameByValue, SameItem, SameInSeat};
ghost use Rattle.mini_terms.specs.Sound.{KindSound, EffectFreeSound, ConstSound, TruthSound, TruthOfValue, LitSound};

/// The value of an expression has the expression's Kind.
pub fn kind_is_sound()
    ensures { KindSound }
{}

/// An effect-free expression, asked for its value, its truth or nothing, replies and leaves the
/// state as it was, or leaves the model.
pub fn effect_free_is_sound()
    ensures { EffectFreeSound }
{}

/// The value of an expression is its Const.
pub fn const_is_sound()
    ensures { ConstSound }
{}

/// The constant that is calculated of an expression is its Const, and each value that it has counts
/// as its truth by that.
pub fn constants_are_sound()
    ensures value { ConstantIsConst }
    ensures truth { ConstantTruth }
{}

/// The truth that a test gets of an expression, and that of its value, is its Truth.
pub fn truth_is_sound()
    ensures test { TruthSound }
    ensures value { TruthOfValue }
{}

/// The value of what makes a number of 32 bits is a whole number from -2^31 to 2^32 - 1.
pub fn int32_is_sound()
    ensures { Int32Sound }
{}

/// The literal of a value has that value, and does nothing.
pub fn lit_is_sound()
    ensures { LitSound }
{}

/// What is no name, no member and no chain is read by its value alone, whatever is asked; so what
/// is the same by its value is the same everywhere, and where no reference is asked any expression
/// is.
pub fn values_are_read()
    ensures reads { ReadByValue }
    ensures same { SameByValue }
    ensures item { SameItem }
    ensures seat { SameInSeat }
{}

/// A logical expression means its right side where the left one is effect-free and known to let it
/// be evaluated, and its left side where the right one never is. An effect-free expression
/// statement does nothing.
pub fn what_is_known_goes()
    ensures on { GoesOnSame }
    ensures stops { StopsSame }
    ensures statement { DoesNothing }
{}
