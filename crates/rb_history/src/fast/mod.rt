//! Lines read in one pass, as programs spell them: no blank, no escape. If blanks are between the tokens of a
//! command, they are left out first. Any other text is read by its JSON value. `None` says nothing of a text.
pub mod account;
pub mod blanks;
pub mod command;
pub mod counts;
pub mod entry;
pub mod event;
pub mod id;
pub mod kind;
pub mod name;
pub mod number;
pub mod refusal;
pub mod reply;
pub mod scan;
pub mod shadow;
pub mod statement;
