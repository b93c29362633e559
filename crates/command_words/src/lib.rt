//! The words of the command line: what they ask the program for, and its help.
#![tactic(auto)]

mod operate_words;
mod words;

pub use operate_words::{
    OperateWords, RepeatedWords, ShownWords, TalkAsked, TalkWords, WindowWords, window_named,
};
pub use words::{
    DEFAULT_BUDGET, Listing, Outcomes, RunWords, SaveWords, Words, WordsFault, command, page_named,
    sources_of, words_of,
};
