//! The grammar of JavaScript text as a table, and the production of each node of a tree.
#![tactic(auto)]

mod expressions;
mod forms;
mod grammar;
mod keyword;
mod own;
mod parts;
mod rules;
mod sorts;
mod token;

pub use forms::pieces_of;
pub use grammar::{Aim, Ending, Fixed, Goal, Least, Lookahead, Opener, Piece, Place, Rule, Silent};
pub use keyword::{Keyword, units_of};
pub use own::{own_flag, own_text, own_token};
pub use parts::{
    first_part, is_absent, is_same_flag, is_same_text, only_name, second_part, short_rule,
};
pub use rules::rule_in;
pub use sorts::has_sort;
pub use token::{Punct, Token, Tokens};
