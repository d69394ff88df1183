// The words of the command line.

ghost use Rattle.std.specs.Prelude.{◌≡◌, ◌||◌, codes, map, string_bytes, MatchOption};
ghost use Rattle.mini_run.specs.Words.{NameOrders};
ghost use Rattle.mini_peephole.specs.Answer.{to_read};
ghost use Rattle.mini_tree.specs.declared.options.CompressOptions.{CompressOptions};
ghost use Rattle.mini_texts.specs.Options.{NameTextOrders, names_depth, all_name_depths};
ghost use Rattle.mini_texts.specs.declared.options.TextOrders.{TextOrders};

use mini_run::{Words, read_orders};
use mini_tree::CompressOptions;

/// How the text of a program is written, and how deep the program may nest.
#[derive(Clone, Copy)]
pub struct TextOptions {
    /// Whether a blank stands between any two tokens; else one stands only where two tokens would
    /// run together.
    pub spaced: bool,
    /// How deep the nodes of a program may nest, the program being at depth 1.
    pub max_depth: u32,
}

/// The orders that good words give.
#[derive(Clone, Copy)]
pub struct TextOrders {
    /// Whether a blank stands between any two tokens.
    pub spaced: bool,
    /// Whether the program is minified.
    pub minify: bool,
    /// The options of the minifier. A program that isn't minified is read to their depth.
    pub options: CompressOptions,
}

// The options of words that order to read; None for those that order a script, and bad ones.
fn read_minifying(words: &Words) -> Option<CompressOptions>
    ensures { MatchOption result ((o : CompressOptions) → NameOrders words.now (to_read o) → ⊥) (λ o. NameOrders words.now (to_read o)) }
{
    let orders = read_orders(words)?;
    match orders.generate {
        None => Some(orders.options),
        Some(_) => None,
    }
}

// Whether a word begins as one that names a depth.
#[tactic(auto, using(std::proofs::lemmas::Str::Pattern::starts_text))]
fn names_depth(word: &str) -> bool
    ensures { result ≡ names_depth word.now }
{
    word.starts_with("--max-depth=")
}

fn all_name_depths(words: &[String]) -> bool
    ensures { result ≡ all_name_depths (map string_bytes words.now) }
{
    match words {
        [] => true,
        [word, rest @ ..] => names_depth(word.as_str()) && all_name_depths(rest),
    }
}

// Without `--minify` no word of the minifier may stand but a depth.
fn may_stand(minify: bool, words: &Words) -> bool
    ensures { result ≡ (minify || all_name_depths words.now) }
{
    minify || all_name_depths(words.as_slice())
}

/// What the words ask for, without memory: `--spaced`, `--minify`, and the words of the minifier but
/// `--generate=N`; without `--minify` none of these but `--max-depth=N`. Each stands at most once,
/// in any order. None exactly where a word is another, or one stands twice.
pub fn read_text_orders(words: &mut Words) -> Option<TextOrders>
    ensures { MatchOption result ((o : TextOrders) → NameTextOrders words.old o → ⊥) (NameTextOrders words.old) }
{
    let spaced = words.take("--spaced");
    let minify = words.take("--minify");
    if !may_stand(minify, words) {
        return None;
    }
    let options = read_minifying(words)?;
    Some(TextOrders {
        spaced,
        minify,
        options,
    })
}
