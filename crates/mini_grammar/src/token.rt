// Tokens, and a list of them that is written from its end.

ghost use Rattle.std.specs.Prelude.{◌≡◌, [], ◌∷◌, ◌-◌, length, drop, OnOk, OnErr, MatchOption, option_map};
ghost use Rattle.mini_print.specs.Token as tokens;
ghost use Rattle.mini_print.specs.Text.{spelled, text_of};
ghost use Rattle.mini_grammar.specs.Views.{before, token_of};
ghost use Rattle.mini_grammar.specs.Firsts.{first_of, second_of};

use mini_model::{AssignmentOperator, OutOfMemory};
use std::alloc::Global;
use std::marker::Model;

/// A punctuator (ECMA-262, "Punctuators").
#[derive(Clone, Copy)]
pub enum Punct {
    /// `(`
    LeftParen,
    /// `)`
    RightParen,
    /// `[`
    LeftBracket,
    /// `]`
    RightBracket,
    /// `{`
    LeftBrace,
    /// `}`
    RightBrace,
    /// `,`
    Comma,
    /// `;`
    Semicolon,
    /// `:`
    Colon,
    /// `?`
    Question,
    /// `.`
    Dot,
    /// `...`
    Ellipsis,
    /// `?.`
    OptionalDot,
    /// `=>`
    Arrow,
    /// `+`
    Plus,
    /// `-`
    Minus,
    /// `*`
    Times,
    /// `/`
    Slash,
    /// `%`
    Percent,
    /// `**`
    Power,
    /// `++`
    PlusPlus,
    /// `--`
    MinusMinus,
    /// `!`
    Bang,
    /// `~`
    Tilde,
    /// `&`
    Ampersand,
    /// `|`
    Bar,
    /// `^`
    Caret,
    /// `&&`
    AndAnd,
    /// `||`
    BarBar,
    /// `??`
    QuestionQuestion,
    /// `<<`
    ShiftL,
    /// `>>`
    ShiftR,
    /// `>>>`
    ShiftRR,
    /// `<`
    Less,
    /// `<=`
    LessEqual,
    /// `>`
    Greater,
    /// `>=`
    GreaterEqual,
    /// `==`
    EqualEqual,
    /// `!=`
    BangEqual,
    /// `===`
    EqualEqualEqual,
    /// `!==`
    BangEqualEqual,
    /// `=`, and each other operator of an assignment.
    Assigns(AssignmentOperator),
}

/// A token. Its texts stand in the tree that is written.
#[derive(Clone, Copy)]
pub enum Token<'a> {
    /// An identifier's name or a word.
    Word(&'a [u16]),
    /// A punctuator.
    Mark(Punct),
    /// A whole number.
    Number(u64),
    /// A whole number of type BigInt.
    BigInt(u128),
    /// A literal in quotes, by the text that it stands for: what needs an escape is written with
    /// one.
    Text(&'a [u16]),
    /// A literal in quotes, by what stands between the quotes.
    Quoted(&'a [u16]),
    /// A regular expression: its pattern and its flags.
    Pattern(&'a [u16], &'a [u16]),
    /// A private name, without its `#`.
    Private(&'a [u16]),
    /// A template without expressions.
    TemplateWhole(&'a [u16]),
    /// A template up to its first expression.
    TemplateHead(&'a [u16]),
    /// A piece of a template between two expressions.
    TemplateMiddle(&'a [u16]),
    /// A template from its last expression on.
    TemplateTail(&'a [u16]),
}

/// Tokens that are put one before the other. A contract sees them in the order of the text.
pub struct Tokens<'a> {
    // the last token of the text stands first
    items: Vec<Token<'a>>,
}

impl<'a> Model for Tokens<'a> {
    ghost use Rattle.std.specs.Prelude.{List, []};
    ghost use Rattle.mini_print.specs.Token.{Token};
    ghost use Rattle.mini_grammar.specs.Views.{before};

    ghost Value = { List Token };

    ghost view = { λ b. before b.items.items [] };
}

impl<'a> Tokens<'a> {
    /// No token.
    pub fn new(alloc: Global) -> Tokens<'a>
        ensures { result ≡ [] }
    {
        Tokens {
            items: Vec::new(alloc),
        }
    }

    /// How many tokens there are.
    #[tactic(auto, using(crate::proofs::Before::as_many))]
    pub fn len(&self) -> usize
        ensures { result ≡ length self.now }
    {
        self.items.len()
    }

    /// Puts a token before the others. After `OutOfMemory` they are as they were.
    #[tactic(auto, using(crate::proofs::Before::one_more))]
    pub fn push(&mut self, token: Token<'a>) -> Result<(), OutOfMemory>
        ensures ok { OnOk result (self.new ≡ token_of token.entry ∷ self.old) }
        ensures err { OnErr result (self.new ≡ self.old) }
    {
        match self.items.push(token) {
            Ok(()) => Ok(()),
            Err(_) => Err(OutOfMemory),
        }
    }

    /// Takes the first token out.
    #[tactic(auto, using(crate::proofs::Before::one_more))]
    pub fn pop(&mut self) -> Option<Token<'a>>
        ensures { MatchOption result ((self.old ≡ []) × (self.new ≡ [])) (λ first. self.old ≡ token_of first ∷ self.new) }
    {
        self.items.pop()
    }

    /// The tokens, the last one first.
    pub fn from_last(&self) -> &[Token<'a>]
        ensures { before result.now [] ≡ self.now }
    {
        self.items.as_slice()
    }

    /// The first token.
    #[tactic(auto, using(crate::proofs::Before::first_is))]
    pub fn first(&self) -> Option<Token<'a>>
        ensures { option_map token_of result ≡ first_of self.now }
    {
        self.items.last().copied()
    }

    /// The second token.
    #[tactic(auto, using(crate::proofs::Before::first_is, crate::proofs::Before::one_more))]
    pub fn second(&self) -> Option<Token<'a>>
        ensures { option_map token_of result ≡ second_of self.now }
    {
        let (_, others) = self.items.as_slice().split_last()?;
        others.last().copied()
    }

    /// Takes tokens out from the front until that many are left.
    #[tactic(auto, using(crate::proofs::Before::last_ones))]
    pub fn keep_last(&mut self, count: usize)
        ensures { self.new ≡ drop (length self.old - count) self.old }
    {
        self.items.truncate(count);
    }
}

impl<'a> Drop for Tokens<'a> {
    fn drop(self) {
        let Tokens { items } = self;
        drop(items);
    }
}
