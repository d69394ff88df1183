//! What a run of the minifier is given: its words and the options that they choose, sources and
//! sinks, of std and in memory, and all that a source gives read, and all of a text written.
#![tactic(auto)]

mod adapters;
mod choice;
mod generated;
mod laws;
mod memory;
mod outside;
mod plain;
mod steps;
mod words;

pub use adapters::{StdSink, StdSource};
pub use choice::{Choice, Orders, read_choice, read_options, read_orders};
pub use generated::{generate, generated_fit};
pub use laws::{no_option_stands_twice, words_name_one_choice, words_stand_in_any_order};
pub use memory::{MemSink, MemSource};
pub use outside::{Failed, LIMIT, Sink, Source, Stopped, read_all, write_all};
pub use plain::{PlainSink, PlainSource};
pub use steps::Steps;
pub use words::Words;
