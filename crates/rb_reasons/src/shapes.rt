//! The table of shapes: what a value has to be, and what it is called.

use crate::Expected;
use crate::shapes::Role::{Free, If, Named, Needed, One, Other, Stray};
use crate::shapes::Shape::{Every, Flag, Items, Name, Number, Object, Text, Unknown};
use rb_history::BankName;
use rb_money::{
    Config, MOST_BLUE, MOST_CENTS, MOST_EPOCH, MOST_HISTORY, MOST_INBOX, MOST_RATE, MOST_RED,
    MOST_SITES, MOST_SITES_OF_VERSION_1, Refusal,
};

/// What a value has to be, and what it is called: a number of the first range, of which a line may have the second, and
/// a bank refuses the rest; a text, or the name of an operation; a list of these items or of any number of one, by the
/// names of their shapes; an object; true or false; or anything, after a key that its object doesn't have.
#[derive(Clone, Copy)]
pub enum Shape {
    Number(&'static str, Range, Range),
    Text(&'static str),
    Name,
    Items(&'static str, &'static [&'static str]),
    Every(&'static str, &'static str),
    Object(&'static str, Keys),
    Flag,
    Unknown,
}

/// The least and the most of a number.
pub type Range = (i64, u64);

/// Keys of an object by their part in it, in the order in which they are said.
pub type Keys = &'static [(Role, &'static [&'static str])];

/// The part of keys in an object.
#[derive(Clone, Copy, PartialEq, Eq)]
pub enum Role {
    /// The object has one of all such keys; it has each; it may have each.
    One,
    Needed,
    Free,
    /// It may have each if its bank has a name, else these are words on the key.
    Named(&'static str),
    /// It has each if its kind or its refusal is this one.
    If(&'static str),
    /// They are in another kind of line, unless a key that is needed comes before them here: words on the key.
    Stray(&'static str),
    /// The same, with words on the object.
    Other(&'static str),
}

/// A word of the formats, without quotes; or another name of a shape.
macro_rules! key {
    ($word:ident) => { rb_history::word!($word []) };
    ($name:literal) => { $name };
}

/// Some of these.
macro_rules! keys {
    ([$($key:tt)*]) => { &[$(key!($key)),*] };
    ($keys:ident) => { $keys };
}

/// Keys of an object by their parts.
macro_rules! parts {
    ($($role:expr => $keys:tt),*) => { &[$(($role, keys!($keys))),*] };
}

/// A number of this range, of which a line may have more, from 0 to the last of these, if it is there.
macro_rules! number {
    ($what:literal, $least:expr, $most:expr) => { Number($what, ($least, $most as u64), ($least, $most as u64)) };
    ($what:literal, $least:expr, $most:expr; $taken:expr) => { Number($what, ($least, $most), (0, $taken as u64)) };
}

/// The shape of a name, by a table in which some have the same.
macro_rules! shapes {
    ($name:expr; $($($key:tt)|* $(if $test:expr)? => $shape:expr;)*) => {
        match $name { $($(key!($key))|* $(if $test)? => $shape,)* _ => Unknown }
    };
}

/// The keys of requests.
pub const REQUESTS: &[&str] = keys!([deposit withdraw interest transfer cancel]);

const ASKED: &[&str] = keys!([batch apply pass balance asof statement]);

// What is said of keys in another kind of line.
const NO_CONFIG: &str =
    "the first line is the configuration, as {\"accounts\":[[\"ann\",0]],\"sites\":2,\"version\":1}";

const AFTER_CONFIG: &str = "a configuration is the first line alone";

const NO_ENTRY: &str =
    "this is a command, and a history has entries; `rbbank script` takes commands";

const CONFIG: Keys = parts![
    Other(NO_CONFIG) => REQUESTS, Other(NO_CONFIG) => ASKED, Other(NO_CONFIG) => [deliver event],
    Needed => [accounts sites version], Free => [blue red inbox history epoch]];

const COMMAND: Keys = parts![
    Other("this is an entry of a history, and a script has commands; `rbbank audit` takes entries") => [event],
    Other(AFTER_CONFIG) => [accounts],
    Stray("\"shadow\" is in histories alone; in a script \"deliver\" brings a message, by its number") => [shadow],
    Stray("\"token\" is in histories alone; in a script \"deliver\" brings a message, by its number") => [token],
    Stray("ids are for `rbbank site`") => [id], Stray("questions are for `rbbank site`") => [about resend],
    One => REQUESTS, One => ASKED, One => [deliver], Needed => [site]];

const ENTRY: Keys = parts![Needed => [event], Other(NO_ENTRY) => REQUESTS, Other(NO_ENTRY) => ASKED,
    Other(NO_ENTRY) => [deliver], Needed => [reply site], Free => [id]];

const LINE: Keys = parts![
    Other("this is an entry of a history, and a site takes events") => [event], Other(AFTER_CONFIG) => [accounts],
    Stray("a site takes what another one sent: \"shadow\" or \"token\"") => [deliver],
    Stray("the events of a site have no \"site\"; `rbbank script` takes commands of all sites") => [site],
    One => REQUESTS, One => ASKED, One => [about resend shadow token], Free => [id],
    Named("the bank of this site has no name: `--bank` gives it one") => [bank]];

const EVENT: Keys = parts![
    Other("a history has what was delivered: \"shadow\" or \"token\"") => [deliver],
    One => REQUESTS, One => ASKED, One => [shadow token]];

const REQUEST: Keys = parts![One => REQUESTS];

const SHADOW: Keys = parts![
    Needed => [account amount deps home kind name], If(key!(cancel)) => [target], If(key!(transfer)) => [to]];

const REPLY: Keys = parts![One => [held already applied taken stale passed balance names]];

/// The keys of replies in other forms.
pub const MADE: Keys = parts![Needed => [kind name]];

pub const STATEMENT: Keys = parts![Needed => [start rows balance]];

pub const REFUSAL: Keys = parts![
    Needed => [refused], If("6") => [position], If("9") => [seen needed], If("13") => [index cause], If("17") => [why]];

/// What the shapes of a line depend on: what is expected, and the bank once there is one; a site's bank has a name.
#[derive(Clone, Copy)]
pub enum Terms<'a> {
    Line(Expected, Option<&'a Config>),
    Site(&'a Config, &'a BankName),
}

impl Terms<'_> {
    /// The shape of this name: of the value of a key, of an item of a list, or, without one, of a whole line.
    pub fn shape_of(self, name: &str) -> Shape {
        let (line, config) = match self {
            Terms::Line(Expected::Config, config) => (Object("a configuration", CONFIG), config),
            Terms::Line(Expected::Command, config) => (Object("a command", COMMAND), config),
            Terms::Line(Expected::Entry, config) => (Object("an entry", ENTRY), config),
            Terms::Site(config, _) => (Object("an event", LINE), Some(config)),
        };
        let (version, sites) = config.map_or((1, u8::MAX), |it| (it.version(), it.sites()));
        let last = u64::from(sites.saturating_sub(1));
        let is_entry = matches!(self, Terms::Line(Expected::Entry, _));
        shapes! { name;
            "" => line;
            // Requests, and what else is asked.
            deposit => Items("[account, amount] of a deposit", keys!([account "cents"]));
            withdraw => Items("[account, amount] of a withdrawal", keys!([account "cents"]));
            interest => Items("[account, rate] of interest", keys!([account "rate"]));
            transfer => Items("[from, to, amount] of a transfer", keys!(["either" "either" "cents"]));
            batch => Every("a batch", "request");
            "request" => Object("a request of a batch", REQUEST);
            asof => Items("[account, position] of asof", keys!([account position]));
            account | balance | statement => Text("the account");
            "either" => Text("an account");
            "cents" => number!("an amount in cents", 1, MOST_CENTS; u64::MAX);
            "rate" => number!("a rate in basis points", 0, MOST_RATE as u64; u32::MAX);
            position => number!("a position", 0, u32::MAX);
            cancel | apply | name | target | held | already | applied => Name;
            pass => number!("the site that the token is passed to", 0, last; u8::MAX);
            deliver => number!("a message's number", 0, u32::MAX);
            about => Text("what a question is about");
            resend => number!("the number of the last entries", 0, MOST_HISTORY);
            site if is_entry => number!("a site", 0, last);
            site | "sender" => number!("a site", 0, last; u8::MAX);
            id => Text("an id");
            bank => Text("the bank's name");
            // What is received.
            shadow => Object("a received operation", SHADOW);
            amount => number!("an amount in cents", 0, MOST_CENTS; u64::MAX);
            deps => Items("the clock", keys!(["counts" "reds"]));
            "counts" if version == 1 => Items("in version 1 a clock", &["count"; MOST_SITES_OF_VERSION_1]);
            "counts" => Every("in version 2 a clock", "site with count");
            "site with count" => Items("a site with its count", keys!(["counted site" "its count"]));
            "counted site" => number!("a site", 0, last; MOST_SITES - 1);
            "its count" => number!("a count", 1, u32::MAX);
            "count" | seen | needed => number!("a count", 0, u32::MAX);
            "reds" => number!("the number of red operations", 0, u32::MAX);
            home => number!("the home", 0, last; u8::MAX);
            kind => Text("kind");
            to => Text("the second account");
            token => Items("the token", keys!([taken "sender" "reds"]));
            // Entries.
            event => Object("an event", EVENT);
            reply => Object("a reply", REPLY);
            taken | stale | passed => number!("an epoch", 0, u32::MAX);
            start => number!("a balance", 0, u64::MAX);
            names => Every("the value of names", key!(name));
            rows => Every("the value of rows", "row");
            "row" => Items("a row", keys!([position name kind "moved" "cancelled" start]));
            "moved" => number!("what a row moved", i64::MIN, i64::MAX);
            "cancelled" => Flag;
            refused => number!("a refusal", 1, Refusal::SameAccount.number());
            index => number!("an index", 0, u8::MAX);
            cause => number!("a cause that isn't \"declined\"", 0, u8::MAX);
            why => number!("why", 0, u8::MAX);
            // Configurations.
            accounts => Every("the value of accounts", "new account");
            "new account" => Items("an account", keys!(["new name" "new cents"]));
            "new name" => Text("an account's name");
            "new cents" => number!("a starting balance in cents", 0, MOST_CENTS);
            sites => number!("the number of sites", 2, MOST_SITES);
            version => number!("the version", 1, 2);
            blue => number!("the limit blue", 1, MOST_BLUE);
            red => number!("the limit red", 1, MOST_RED);
            inbox => number!("the limit inbox", 1, MOST_INBOX);
            history => number!("the limit history", 1, MOST_HISTORY);
            epoch => number!("the limit epoch", 1, MOST_EPOCH);
        }
    }
}

pub(crate) use key;
