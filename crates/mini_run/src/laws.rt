//! Laws of the words, each as the contract of a function that does nothing.
ghost use Rattle.std.specs.Prelude.{◌≡◌, ◌∷◌, ◌++◌, ℕ, List};
ghost use Rattle.mini_tree.specs.declared.options.CompressOptions.{CompressOptions};
ghost use Rattle.mini_run.specs.declared.choice.Choice.{Choice};
ghost use Rattle.mini_run.specs.declared.choice.Orders.{Orders};
ghost use Rattle.mini_run.specs.Words.{spelling, option_of, IsAllowed, NameOptions, NameOrders, GoodWords};

/// Good words name one choice of options, and order one thing.
pub fn words_name_one_choice()
    ensures orders { (words : List (List ℕ)) (r r' : Orders) → NameOrders words r → NameOrders words r' → r ≡ r' }
    ensures options { (words : List (List ℕ)) (o o' : CompressOptions) → NameOptions words o → NameOptions words o' → o ≡ o' }
{}

/// Words may stand in any order: where two neighbours change places, the same is ordered, and the
/// same options are named.
pub fn words_stand_in_any_order()
    ensures orders { (xs ys : List (List ℕ)) (v w : List ℕ) (r : Orders) → NameOrders (xs ++ v ∷ w ∷ ys) r → NameOrders (xs ++ w ∷ v ∷ ys) r }
    ensures options { (xs ys : List (List ℕ)) (v w : List ℕ) (o : CompressOptions) → NameOptions (xs ++ v ∷ w ∷ ys) o → NameOptions (xs ++ w ∷ v ∷ ys) o }
{}

/// Words that name an option twice, with the same number or another, are not good.
pub fn no_option_stands_twice()
    ensures { (xs ys zs : List (List ℕ)) (c d : Choice) → IsAllowed c → IsAllowed d → option_of c ≡ option_of d
        → GoodWords (xs ++ spelling c ∷ (ys ++ spelling d ∷ zs)) → ⊥ }
{}
