//! The words of the formats, each once: the keys of objects, and the words that are values. The crates above write
//! theirs by [`spell!`](crate::spell) too.
//!
//! They are macros, and not constants, so that each call is one literal: a text of a known length is compared, or
//! added, by a few steps, and a word apart from its quotes would cost a second comparison.

/// A text in which each word is in quotes: `spell!("," refused ":9," seen ":")` is `,"refused":9,"seen":`.
#[macro_export]
macro_rules! spell {
    (@ [$($done:literal)*]) => { concat!($($done),*) };
    (@ [$($done:literal)*] $text:literal $($rest:tt)*) => { $crate::spell!(@ [$($done)* $text] $($rest)*) };
    (@ [$($done:literal)*] $word:ident $($rest:tt)*) => { $crate::word!($word [$($done)* "\""] "\"" $($rest)*) };
    ($($all:tt)*) => { $crate::spell!(@ [] $($all)*) };
}

/// The text of `spell!` without its first quote: `behind_quote!(refused ":9")` is `refused":9`.
macro_rules! behind_quote {
    ($word:ident $($rest:tt)*) => { $crate::word!($word [] "\"" $($rest)*) };
}

/// A word without quotes.
macro_rules! key {
    ($word:ident) => { $crate::word!($word []) };
}

/// The table of the words: each is added after the part of a text that is done. Only the macros above call it.
#[macro_export]
macro_rules! word {
    // Events, and what a command asks.
    (deposit [$($done:literal)*] $($rest:tt)*) => { $crate::spell!(@ [$($done)* "deposit"] $($rest)*) };
    (withdraw [$($done:literal)*] $($rest:tt)*) => { $crate::spell!(@ [$($done)* "withdraw"] $($rest)*) };
    (interest [$($done:literal)*] $($rest:tt)*) => { $crate::spell!(@ [$($done)* "interest"] $($rest)*) };
    (cancel [$($done:literal)*] $($rest:tt)*) => { $crate::spell!(@ [$($done)* "cancel"] $($rest)*) };
    (transfer [$($done:literal)*] $($rest:tt)*) => { $crate::spell!(@ [$($done)* "transfer"] $($rest)*) };
    (batch [$($done:literal)*] $($rest:tt)*) => { $crate::spell!(@ [$($done)* "batch"] $($rest)*) };
    (apply [$($done:literal)*] $($rest:tt)*) => { $crate::spell!(@ [$($done)* "apply"] $($rest)*) };
    (pass [$($done:literal)*] $($rest:tt)*) => { $crate::spell!(@ [$($done)* "pass"] $($rest)*) };
    (balance [$($done:literal)*] $($rest:tt)*) => { $crate::spell!(@ [$($done)* "balance"] $($rest)*) };
    (asof [$($done:literal)*] $($rest:tt)*) => { $crate::spell!(@ [$($done)* "asof"] $($rest)*) };
    (statement [$($done:literal)*] $($rest:tt)*) => { $crate::spell!(@ [$($done)* "statement"] $($rest)*) };
    (deliver [$($done:literal)*] $($rest:tt)*) => { $crate::spell!(@ [$($done)* "deliver"] $($rest)*) };
    (shadow [$($done:literal)*] $($rest:tt)*) => { $crate::spell!(@ [$($done)* "shadow"] $($rest)*) };
    (token [$($done:literal)*] $($rest:tt)*) => { $crate::spell!(@ [$($done)* "token"] $($rest)*) };
    // The name of a bank.
    (bank [$($done:literal)*] $($rest:tt)*) => { $crate::spell!(@ [$($done)* "bank"] $($rest)*) };
    // Questions.
    (about [$($done:literal)*] $($rest:tt)*) => { $crate::spell!(@ [$($done)* "about"] $($rest)*) };
    (resend [$($done:literal)*] $($rest:tt)*) => { $crate::spell!(@ [$($done)* "resend"] $($rest)*) };
    // Lines of commands and of entries, and the question about a site.
    (site [$($done:literal)*] $($rest:tt)*) => { $crate::spell!(@ [$($done)* "site"] $($rest)*) };
    (id [$($done:literal)*] $($rest:tt)*) => { $crate::spell!(@ [$($done)* "id"] $($rest)*) };
    (event [$($done:literal)*] $($rest:tt)*) => { $crate::spell!(@ [$($done)* "event"] $($rest)*) };
    (reply [$($done:literal)*] $($rest:tt)*) => { $crate::spell!(@ [$($done)* "reply"] $($rest)*) };
    // Shadows.
    (account [$($done:literal)*] $($rest:tt)*) => { $crate::spell!(@ [$($done)* "account"] $($rest)*) };
    (amount [$($done:literal)*] $($rest:tt)*) => { $crate::spell!(@ [$($done)* "amount"] $($rest)*) };
    (deps [$($done:literal)*] $($rest:tt)*) => { $crate::spell!(@ [$($done)* "deps"] $($rest)*) };
    (home [$($done:literal)*] $($rest:tt)*) => { $crate::spell!(@ [$($done)* "home"] $($rest)*) };
    (kind [$($done:literal)*] $($rest:tt)*) => { $crate::spell!(@ [$($done)* "kind"] $($rest)*) };
    (name [$($done:literal)*] $($rest:tt)*) => { $crate::spell!(@ [$($done)* "name"] $($rest)*) };
    (target [$($done:literal)*] $($rest:tt)*) => { $crate::spell!(@ [$($done)* "target"] $($rest)*) };
    (to [$($done:literal)*] $($rest:tt)*) => { $crate::spell!(@ [$($done)* "to"] $($rest)*) };
    // Replies.
    (names [$($done:literal)*] $($rest:tt)*) => { $crate::spell!(@ [$($done)* "names"] $($rest)*) };
    (held [$($done:literal)*] $($rest:tt)*) => { $crate::spell!(@ [$($done)* "held"] $($rest)*) };
    (already [$($done:literal)*] $($rest:tt)*) => { $crate::spell!(@ [$($done)* "already"] $($rest)*) };
    (taken [$($done:literal)*] $($rest:tt)*) => { $crate::spell!(@ [$($done)* "taken"] $($rest)*) };
    (stale [$($done:literal)*] $($rest:tt)*) => { $crate::spell!(@ [$($done)* "stale"] $($rest)*) };
    (applied [$($done:literal)*] $($rest:tt)*) => { $crate::spell!(@ [$($done)* "applied"] $($rest)*) };
    (passed [$($done:literal)*] $($rest:tt)*) => { $crate::spell!(@ [$($done)* "passed"] $($rest)*) };
    (rows [$($done:literal)*] $($rest:tt)*) => { $crate::spell!(@ [$($done)* "rows"] $($rest)*) };
    (start [$($done:literal)*] $($rest:tt)*) => { $crate::spell!(@ [$($done)* "start"] $($rest)*) };
    // Answers of a site.
    (again [$($done:literal)*] $($rest:tt)*) => { $crate::spell!(@ [$($done)* "again"] $($rest)*) };
    (sends [$($done:literal)*] $($rest:tt)*) => { $crate::spell!(@ [$($done)* "sends"] $($rest)*) };
    (then [$($done:literal)*] $($rest:tt)*) => { $crate::spell!(@ [$($done)* "then"] $($rest)*) };
    (entries [$($done:literal)*] $($rest:tt)*) => { $crate::spell!(@ [$($done)* "entries"] $($rest)*) };
    (resent [$($done:literal)*] $($rest:tt)*) => { $crate::spell!(@ [$($done)* "resent"] $($rest)*) };
    (bad [$($done:literal)*] $($rest:tt)*) => { $crate::spell!(@ [$($done)* "bad"] $($rest)*) };
    (line [$($done:literal)*] $($rest:tt)*) => { $crate::spell!(@ [$($done)* "line"] $($rest)*) };
    // Refusals.
    (refused [$($done:literal)*] $($rest:tt)*) => { $crate::spell!(@ [$($done)* "refused"] $($rest)*) };
    (position [$($done:literal)*] $($rest:tt)*) => { $crate::spell!(@ [$($done)* "position"] $($rest)*) };
    (needed [$($done:literal)*] $($rest:tt)*) => { $crate::spell!(@ [$($done)* "needed"] $($rest)*) };
    (seen [$($done:literal)*] $($rest:tt)*) => { $crate::spell!(@ [$($done)* "seen"] $($rest)*) };
    (cause [$($done:literal)*] $($rest:tt)*) => { $crate::spell!(@ [$($done)* "cause"] $($rest)*) };
    (index [$($done:literal)*] $($rest:tt)*) => { $crate::spell!(@ [$($done)* "index"] $($rest)*) };
    (why [$($done:literal)*] $($rest:tt)*) => { $crate::spell!(@ [$($done)* "why"] $($rest)*) };
    (declined [$($done:literal)*] $($rest:tt)*) => { $crate::spell!(@ [$($done)* "declined"] $($rest)*) };
    // Configurations.
    (accounts [$($done:literal)*] $($rest:tt)*) => { $crate::spell!(@ [$($done)* "accounts"] $($rest)*) };
    (blue [$($done:literal)*] $($rest:tt)*) => { $crate::spell!(@ [$($done)* "blue"] $($rest)*) };
    (epoch [$($done:literal)*] $($rest:tt)*) => { $crate::spell!(@ [$($done)* "epoch"] $($rest)*) };
    (history [$($done:literal)*] $($rest:tt)*) => { $crate::spell!(@ [$($done)* "history"] $($rest)*) };
    (inbox [$($done:literal)*] $($rest:tt)*) => { $crate::spell!(@ [$($done)* "inbox"] $($rest)*) };
    (red [$($done:literal)*] $($rest:tt)*) => { $crate::spell!(@ [$($done)* "red"] $($rest)*) };
    (sites [$($done:literal)*] $($rest:tt)*) => { $crate::spell!(@ [$($done)* "sites"] $($rest)*) };
    (version [$($done:literal)*] $($rest:tt)*) => { $crate::spell!(@ [$($done)* "version"] $($rest)*) };
    // Verdicts.
    (order [$($done:literal)*] $($rest:tt)*) => { $crate::spell!(@ [$($done)* "order"] $($rest)*) };
    (fault [$($done:literal)*] $($rest:tt)*) => { $crate::spell!(@ [$($done)* "fault"] $($rest)*) };
    (next [$($done:literal)*] $($rest:tt)*) => { $crate::spell!(@ [$($done)* "next"] $($rest)*) };
    (stuck [$($done:literal)*] $($rest:tt)*) => { $crate::spell!(@ [$($done)* "stuck"] $($rest)*) };
    (open [$($done:literal)*] $($rest:tt)*) => { $crate::spell!(@ [$($done)* "open"] $($rest)*) };
    (lacks [$($done:literal)*] $($rest:tt)*) => { $crate::spell!(@ [$($done)* "lacks"] $($rest)*) };
    (limit [$($done:literal)*] $($rest:tt)*) => { $crate::spell!(@ [$($done)* "limit"] $($rest)*) };
}

pub(crate) use behind_quote;
pub(crate) use key;
pub(crate) use spell;
pub(crate) use word;
