// What a word of the command line chooses.

ghost use Rattle.std.specs.Prelude.{◌≡◌, ◌≢◌, ◌<◌, ◌≤◌, ◌^◌, ◌++◌, ℕ, List, None, get_or, unwrap_or, codes, IfSome, MatchOption};
ghost use Rattle.std.specs.Fmt.{decimal};
ghost use Rattle.mini_tree.specs.Options.{default_options};
ghost use Rattle.mini_run.specs.Words.{spelling, option_of, number_of, named, chosen, ordered, IsAllowed, HasNumber, GoodWords, NameOptions, NameOrders};
ghost use Rattle.mini_run.specs.declared.choice.Choice.{Choice};

use crate::words::Words;
use mini_tree::{CompressOptions, KeepNames};

/// The choice that one word of the command line makes.
#[derive(Clone, Copy, PartialEq, Eq, Debug)]
pub enum Choice {
    /// `--no-sequences`
    NoSequences,
    /// `--no-join-vars`
    NoJoinVars,
    /// `--keep-function-names`
    KeepFunctionNames,
    /// `--keep-class-names`
    KeepClassNames,
    /// `--pure-coercion`
    PureCoercion,
    /// `--known-calls`
    KnownCalls,
    /// `--passes=N`
    Passes(u32),
    /// `--max-depth=N`
    MaxDepth(u32),
    /// `--generate=N`
    Generate(u32),
    /// `--edition=N`
    Edition(u32),
}

/// The orders that good words give.
#[derive(Clone, Copy)]
pub struct Orders {
    /// The options of the minifier.
    pub options: CompressOptions,
    /// How many statements are generated in place of what is read, where that is asked for.
    pub generate: Option<u32>,
}

impl Choice {
    /// The place of the option that is chosen.
    pub fn option(&self) -> usize
        ensures { result ≡ option_of self.now }
    {
        match self {
            Choice::NoSequences => 0,
            Choice::NoJoinVars => 1,
            Choice::KeepFunctionNames => 2,
            Choice::KeepClassNames => 3,
            Choice::PureCoercion => 4,
            Choice::KnownCalls => 5,
            Choice::Passes(_) => 6,
            Choice::MaxDepth(_) => 7,
            Choice::Generate(_) => 8,
            Choice::Edition(_) => 9,
        }
    }

    /// The number that is chosen; 0 for an option without one.
    pub fn number(&self) -> u32
        ensures { result ≡ number_of self.now }
    {
        match self {
            Choice::NoSequences => 0,
            Choice::NoJoinVars => 0,
            Choice::KeepFunctionNames => 0,
            Choice::KeepClassNames => 0,
            Choice::PureCoercion => 0,
            Choice::KnownCalls => 0,
            Choice::Passes(number) => *number,
            Choice::MaxDepth(number) => *number,
            Choice::Generate(number) => *number,
            Choice::Edition(number) => *number,
        }
    }
}

// The number with these digits: decimal, without a sign, and without a zero in front.
fn read_number(digits: &str) -> Option<u32>
    ensures { MatchOption result ((n : ℕ) → n < 2 ^ 32 → digits.now ≢ decimal n) (λ n. digits.now ≡ decimal n) }
{
    let bytes = digits.as_bytes();
    if bytes.is_empty() {
        return None;
    }
    let first = bytes[0];
    if first == b'+' {
        return None;
    }
    if first == b'0' {
        return if bytes.len() == 1 { Some(0) } else { None };
    }
    match digits.parse() {
        Ok(number) => Some(number),
        Err(_) => None,
    }
}

// The number that stands in the word behind this name.
fn number_after(word: &str, name: &str) -> Option<u32>
    ensures { MatchOption result ((n : ℕ) → n < 2 ^ 32 → word.now ≢ name.now ++ decimal n) (λ n. word.now ≡ name.now ++ decimal n) }
{
    read_number(word.strip_prefix(name)?)
}

// The depth that the word names.
fn read_depth(word: &str) -> Option<u32>
    ensures { MatchOption result ((n : ℕ) → 1 ≤ n → n ≤ 1000 → word.now ≢ codes "--max-depth=" ++ decimal n) (λ n. (1 ≤ n) × (n ≤ 1000) × (word.now ≡ codes "--max-depth=" ++ decimal n)) }
{
    match number_after(word, "--max-depth=")? {
        depth @ 1..=1_000 => Some(depth),
        _ => None,
    }
}

// How many statements the word names.
fn read_count(word: &str) -> Option<u32>
    ensures { MatchOption result ((n : ℕ) → n ≤ 2000 → word.now ≢ codes "--generate=" ++ decimal n) (λ n. (n ≤ 2000) × (word.now ≡ codes "--generate=" ++ decimal n)) }
{
    match number_after(word, "--generate=")? {
        count @ 0..=2_000 => Some(count),
        _ => None,
    }
}

// The edition that the word names, as a year.
fn read_edition(word: &str) -> Option<u32>
    ensures { MatchOption result ((n : ℕ) → 2015 ≤ n → n ≤ 2022 → word.now ≢ codes "--edition=" ++ decimal n) (λ n. (2015 ≤ n) × (n ≤ 2022) × (word.now ≡ codes "--edition=" ++ decimal n)) }
{
    match number_after(word, "--edition=")? {
        edition @ 2_015..=2_022 => Some(edition),
        _ => None,
    }
}

// What a word with a number chooses.
fn read_numbered(word: &str) -> Option<Choice>
    ensures { MatchOption result ((c : Choice) → IsAllowed c → HasNumber c → word.now ≢ spelling c) (λ c. IsAllowed c × (word.now ≡ spelling c)) }
{
    match number_after(word, "--passes=") {
        Some(passes) => Some(Choice::Passes(passes)),
        None => match read_depth(word) {
            Some(depth) => Some(Choice::MaxDepth(depth)),
            None => match read_count(word) {
                Some(count) => Some(Choice::Generate(count)),
                None => match read_edition(word) {
                    Some(edition) => Some(Choice::Edition(edition)),
                    None => None,
                },
            },
        },
    }
}

/// What a word chooses; None exactly where it is none of the words that may stand.
pub fn read_choice(word: &str) -> Option<Choice>
    ensures { MatchOption result ((c : Choice) → IsAllowed c → word.now ≢ spelling c) (λ c. IsAllowed c × (word.now ≡ spelling c)) }
{
    match word {
        "--no-sequences" => Some(Choice::NoSequences),
        "--no-join-vars" => Some(Choice::NoJoinVars),
        "--keep-function-names" => Some(Choice::KeepFunctionNames),
        "--keep-class-names" => Some(Choice::KeepClassNames),
        "--pure-coercion" => Some(Choice::PureCoercion),
        "--known-calls" => Some(Choice::KnownCalls),
        _ => read_numbered(word),
    }
}

// The edition that was chosen, or the one without words.
fn edition_of(year: Option<u32>) -> u16
    requires { IfSome year (λ n. n ≤ 2022) }
    ensures { result ≡ unwrap_or year default_options.edition }
{
    match year {
        Some(year) => year as u16,
        None => CompressOptions::new().edition,
    }
}

// The options, by the number that was chosen for each; None for one that wasn't chosen.
fn options_of(slots: &[Option<u32>; 10]) -> CompressOptions
    requires { IfSome (get_or slots.now 9 None) (λ n. n ≤ 2022) }
    ensures { (cs : List Choice) → ((k : ℕ) → k < 10 → get_or slots.now k None ≡ named k cs) → result ≡ chosen cs }
{
    let defaults = CompressOptions::new();
    CompressOptions {
        sequences: slots[0].is_none(),
        join_vars: slots[1].is_none(),
        keep_names: KeepNames {
            function: slots[2].is_some(),
            class: slots[3].is_some(),
        },
        pure_coercion: slots[4].is_some(),
        known_calls: slots[5].is_some(),
        passes: slots[6].unwrap_or(defaults.passes),
        max_depth: slots[7].unwrap_or(defaults.max_depth),
        edition: edition_of(slots[9]),
    }
}

fn orders_of(slots: &[Option<u32>; 10]) -> Orders
    requires { IfSome (get_or slots.now 9 None) (λ n. n ≤ 2022) }
    ensures { (cs : List Choice) → ((k : ℕ) → k < 10 → get_or slots.now k None ≡ named k cs) → result ≡ ordered cs }
{
    Orders {
        options: options_of(slots),
        generate: slots[8],
    }
}

/// What the words ask for, without memory; None exactly where the words are not good: one of them
/// is none that may stand, or an option stands twice.
pub fn read_orders(words: &Words) -> Option<Orders>
    ensures { MatchOption result (GoodWords words.now → ⊥) (NameOrders words.now) }
{
    let mut slots: [Option<u32>; 10] = [None; 10];
    'words: for word in words.as_slice() {
        let choice = read_choice(word.as_str())?;
        let option = choice.option();
        if slots[option].is_some() {
            return None;
        }
        slots[option] = Some(choice.number());
    }
    Some(orders_of(&slots))
}

/// The options that the words name, without memory; None exactly where the words are not good.
#[tactic(auto, using(crate::proofs::Named::options_named))]
pub fn read_options(words: &Words) -> Option<CompressOptions>
    ensures { MatchOption result (GoodWords words.now → ⊥) (NameOptions words.now) }
{
    match read_orders(words) {
        Some(orders) => Some(orders.options),
        None => None,
    }
}
