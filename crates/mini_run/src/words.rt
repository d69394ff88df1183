ghost use Rattle.std.specs.Prelude.{◌≡◌, ◌≢◌, ◌↔◌, ◌<◌, ◌+◌, ◌∷◌, ◌++◌, ℕ, [], length, map, get_or, string_bytes, IsTrue, MatchOption, OnOk, OnErr};
ghost use Rattle.mini_run.specs.Words.{Taken};

use mini_model::OutOfMemory;
use std::alloc::Global;
use std::marker::Model;

fn is_same(one: &str, other: &str) -> bool
    ensures { IsTrue result ↔ (one.now ≡ other.now) }
{
    one == other
}

// The first place of a word.
fn place_of(words: &[String], word: &str) -> Option<usize>
    ensures { MatchOption result
        ((k : ℕ) → k < length words.now → get_or (map string_bytes words.now) k [] ≢ word.now)
        (λ i. (i < length words.now) × (get_or (map string_bytes words.now) i [] ≡ word.now) × ((k : ℕ) → k < i → get_or (map string_bytes words.now) k [] ≢ word.now)) }
{
    'words: for (at, each) in words.iter().enumerate() {
        if is_same(each.as_str(), word) {
            return Some(at);
        }
    }
    None
}

/// The words of a command line. A contract sees the list of their bytes.
#[derive(Drop)]
pub struct Words {
    alloc: Global,
    words: Vec<String>,
}

impl Model for Words {
    ghost use Rattle.std.specs.Prelude.{ℕ, List, map, string_bytes};

    ghost Value = { List (List ℕ) };

    ghost view = { λ line. map string_bytes line.words.items };
}

impl Words {
    /// No words, without memory.
    pub fn new(alloc: Global) -> Words
        ensures { result ≡ [] }
    {
        Words {
            alloc,
            words: Vec::new(alloc),
        }
    }

    /// Puts a copy of the word last. After `OutOfMemory` the words are as they were.
    pub fn push(&mut self, word: &str) -> Result<(), OutOfMemory>
        ensures ok { OnOk result (self.new ≡ self.old ++ word.now ∷ []) }
        ensures err { OnErr result (self.new ≡ self.old) }
    {
        match String::from_str(self.alloc, word) {
            Ok(copy) => match self.words.push(copy) {
                Ok(()) => Ok(()),
                Err(_) => Err(OutOfMemory),
            },
            Err(_) => Err(OutOfMemory),
        }
    }

    /// Takes out the first word that is this one, without memory, and says whether there was one.
    pub fn take(&mut self, word: &str) -> bool
        ensures { Taken word.now self.old self.new result }
    {
        match place_of(self.words.as_slice(), word) {
            Some(at) => {
                self.words.remove(at);
                true
            }
            None => false,
        }
    }

    /// How many words there are.
    pub fn len(&self) -> usize
        ensures { result ≡ length self.now }
    {
        self.words.len()
    }

    /// The words, first to last.
    pub fn as_slice(&self) -> &[String]
        ensures { map string_bytes result.now ≡ self.now }
    {
        self.words.as_slice()
    }
}
