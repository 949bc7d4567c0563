//! What is wrong with a value: its kind, then what its shape says, then the rules between values. The keys of an object
//! may depend on its values, so that they are looked at once all are known.

use crate::Expected;
use crate::scan::{Node, Scan};
use crate::shapes::Shape::{Every, Flag, Items, Name, Number, Object, Text, Unknown};
use crate::shapes::{Keys, MADE, REFUSAL, REQUESTS, Range, Role, STATEMENT, Shape, Terms, key};
use crate::text::{Checked, Fault, fault, number, quote};
use json::Token;
use rb_history::{LineFault, MOST_ID_BYTES, is_id, open_config};
use rb_money::{LONGEST_NAME, MOST_ACCOUNTS, MOST_SITES, MOST_SITES_OF_VERSION_1};
use rb_shadow::read_name;
use std::alloc::{AllocError, Global};

/// The kinds of operations.
const KINDS: &str = "deposit, withdraw, declined, interest, cancel, transfer";

/// A key that an object may have, and where it is written last.
#[derive(Clone, Copy)]
struct Part {
    role: Role,
    word: &'static str,
    at: Option<usize>,
}

impl Scan<'_> {
    /// What is wrong with a value.
    pub fn check_value(&self, node: &Node<'_>) -> Checked {
        let shape = self.terms.shape_of(node.name);
        match (shape, node.token) {
            (Number(_, _, taken), Token::Number(it)) if is_in_range(it, taken) =>
                self.check_in_range(node),
            (Number(what, said, _), Token::Number(_)) => wrong_number(self.alloc, node, what, said),
            (Text(_) | Name, Token::String(text)) => self.check_text(node, text, shape),
            (Items(_, _) | Every(_, _), Token::BeginArray) => self.check_count(node, shape),
            (Object(what, keys), Token::BeginObject) => self.check_object(node, what, keys),
            (Flag, Token::Bool(_)) | (Unknown, _) => Ok(()),
            // The word in place of a cause's number.
            (_, Token::String(key!(declined))) if node.key == key!(cause) => Ok(()),
            _ => self.wrong_kind(node, shape),
        }
    }

    /// A value of another kind.
    fn wrong_kind(&self, node: &Node<'_>, shape: Shape) -> Checked {
        let kind = match node.token {
            Token::BeginObject => "an object",
            Token::BeginArray => "a list",
            Token::String(_) => "a text",
            Token::Number(_) => "a number",
            _ => "a word",
        };
        let is_config = matches!(self.terms, Terms::Line(Expected::Config, _));
        let (what, wanted) = match shape {
            Number(what, _, _) => (what, "a number"),
            Text(what) => (what, "a text"),
            Name => ("an operation's name", "a text"),
            Items(what, _) | Every(what, _) => (what, "a list"),
            Object(_, _) if node.place == 0 && !is_config => ("a line", "an object"),
            Object(what, _) => (what, "an object"),
            _ =>
                return fault!(self.alloc, node.start => "whether a row is cancelled is true or false"),
        };
        fault!(self.alloc, node.start => "{what} is {wanted}, and this is {kind}")
    }

    /// A number that doesn't go with other values: so many sites in version 1; or, in a clock, a site after a later
    /// one, with a count and the list of this site between them.
    fn check_in_range(&self, node: &Node<'_>) -> Checked {
        let value = |it: &Node<'_>| it.text.parse::<usize>().unwrap_or(0);
        let is_later = |it: &Node<'_>| it.name == "counted site" && value(node) <= value(it);
        let is_first = |it: &Node<'_>| it.key == key!(version) && it.text == "1";
        let earlier = self.nodes.get(node.place.saturating_sub(3));
        let (first, second) = (MOST_SITES_OF_VERSION_1, MOST_SITES);
        match node.name {
            "counted site" if earlier.is_some_and(is_later) =>
                fault!(self.alloc, node.start => "the sites of a clock rise"),
            key!(sites) if first < value(node) && self.nodes.iter().any(is_first) =>
                fault!(self.alloc, node.start => "version 1 has 2 to {first} sites, and version 2 up to {second}"),
            _ => Ok(()),
        }
    }

    /// A text that doesn't keep the rule of its shape.
    fn check_text(&self, node: &Node<'_>, text: &str, shape: Shape) -> Checked {
        let (alloc, at) = (self.alloc, node.start);
        let shown = quote(alloc, node.text)?;
        // The accounts before it in their list.
        let before = self.nodes.get(..node.place).unwrap_or(&[]).iter().rev();
        let mut earlier = before.take_while(|it| it.key.is_empty());
        match (shape, node.name) {
            (_, key!(about)) if text != key!(site) =>
                fault!(alloc, at => "{shown} is nothing to ask about: there is: \"site\""),
            (_, key!(id)) if !is_id(text) => fault!(alloc, at =>
                "{shown} is no id: 1 to {MOST_ID_BYTES} of A-Z, a-z, 0-9, \".\", \"_\", \":\" and \"-\""),
            (_, key!(kind)) if !KINDS.split(", ").any(|kind| kind == text) =>
                fault!(alloc, at => "{shown} is no kind: there are: {KINDS}"),
            (Name, _) if read_name(text).is_none() => fault!(alloc, at =>
                "{shown} is no operation's name: B0.1 is the first blue one of site 0, R1 the first red one"),
            (_, "new name") if !is_account(alloc, node.text)? => fault!(alloc, at =>
                "{shown} is no account's name: 1 to {LONGEST_NAME} of a-z, 0-9, \".\", \"_\" and \"-\""),
            (_, "new name") if earlier.any(|it| it.said() == text) =>
                fault!(alloc, at => "{shown} is the name of an earlier account"),
            _ => Ok(()),
        }
    }

    /// A list with more or fewer items than it may have.
    fn check_count(&self, node: &Node<'_>, shape: Shape) -> Checked {
        let (alloc, at) = (self.alloc, node.start);
        let (items, most) = (number(alloc, node.items)?, number(alloc, MOST_ACCOUNTS)?);
        match shape {
            Items(what, names) if node.items != names.len() => {
                fault!(alloc, at => "{what} is a list of {}, and this has {items}", names.len())
            }
            _ if node.key == key!(accounts) && !(1..=MOST_ACCOUNTS).contains(&node.items) => {
                fault!(alloc, at => "there are {items} accounts, and a configuration has 1 to {most}")
            }
            _ => Ok(()),
        }
    }

    /// What is wrong with the keys of an object, which is called so and has these.
    pub fn check_object(&self, node: &Node<'_>, what: &str, keys: Keys) -> Checked {
        let (alloc, place) = (self.alloc, node.place);
        let inside = self.nodes.iter().skip(place);
        let own = inside.filter(|it| it.holder == Some(place));
        let values: Vec<Node<'_>> = own.take(node.items).copied().collect(alloc)?;
        let (what, number, keys) = form(node, &values).unwrap_or((what, "", keys));
        let what = format!(in alloc; "{what}{number}")?;
        let parts = self.parts(node, keys, &values)?;
        let is_other = |it: &&Node<'_>| !parts.iter().any(|part| part.word == it.key);
        if let Some(value) = values.iter().find(is_other) {
            let (word, all) = (quote(alloc, value.key)?, listed(alloc, &parts, false)?);
            return fault!(alloc, value.key_start => "{what} has no key \"{word}\": there are: {all}");
        }
        check_parts(alloc, &what, node.end, &parts)?;
        self.check_id(node, &values)
    }

    /// The keys that an object with these values may have. One of another kind of line is a fault.
    fn parts(&self, node: &Node<'_>, keys: Keys, values: &[Node<'_>]) -> Result<Vec<Part>, Fault> {
        let kind = find(values, key!(kind)).map_or("", |it| it.said());
        let case = find(values, key!(refused)).map_or(kind, |it| it.text);
        let mut parts: Vec<Part> = Vec::new(self.alloc);
        let mut is_other = true;
        for (role, words) in keys {
            for word in *words {
                let at = find(values, word).map(|it| it.key_start);
                let role = match (*role, at, self.terms) {
                    (Role::Named(_), _, Terms::Site(_, bank)) if !bank.as_bytes().is_empty() =>
                        Role::Free,
                    (Role::If(word), _, _) if word == case => Role::Needed,
                    (Role::Other(why), Some(_), _) if is_other =>
                        return fault!(self.alloc, node.start => "{why}"),
                    (Role::Stray(why) | Role::Named(why), Some(at), _) if is_other =>
                        return fault!(self.alloc, at => "{why}"),
                    (role, _, _) => role,
                };
                is_other = is_other && (role != Role::Needed || at.is_none());
                if matches!(role, Role::One | Role::Needed | Role::Free) {
                    let part = Part { role, word, at };
                    parts.push(part).map_err(AllocError::from)?;
                }
            }
        }
        Ok(parts)
    }

    /// An id with what has none, in an object with all its keys: a line, or the event or the reply of an entry.
    fn check_id(&self, node: &Node<'_>, values: &[Node<'_>]) -> Checked {
        let has = |word: &str| find(values, word).is_some();
        let is_request = has(key!(batch)) || REQUESTS.iter().any(|word| has(word));
        let is_id = |it: &Node<'_>| it.holder == Some(0) && it.key == key!(id);
        let has_id = || self.nodes.iter().any(is_id);
        match self.terms {
            Terms::Site(_, _) if node.place == 0 && !is_request && has_id() =>
                fault!(self.alloc, node.start => "an id is of a request or a batch, and of nothing else"),
            Terms::Line(_, _)
                if (has(key!(refused)) || node.key == key!(event) && !is_request) && has_id() =>
                fault!(self.alloc, node.start => "an entry with an id is of a request that wasn't refused"),
            _ => Ok(()),
        }
    }
}

/// Keys that are missing in an object that has no others and ends here, or of which it has two and not one.
fn check_parts(alloc: Global, what: &str, end: usize, parts: &[Part]) -> Checked {
    let ones = listed(alloc, parts, true)?;
    let ones_here = parts.iter().filter(|it| it.role == Role::One);
    let mut found = ones_here.filter_map(|it| Some((it.word, it.at?)));
    let is_missing = |it: &&Part| it.role == Role::Needed && it.at.is_none();
    let missing = parts.iter().find(is_missing);
    match (found.next(), found.next(), missing) {
        (Some((one, _)), Some((more, at)), _) =>
            fault!(alloc, at => "{what} is one, and here are {one} and {more}"),
        (None, _, _) if !ones.is_empty() =>
            fault!(alloc, end => "{what} is one of {ones}, and none is here"),
        (_, _, Some(part)) =>
            fault!(alloc, end => "the key \"{}\" of {what} is missing", part.word),
        _ => Ok(()),
    }
}

/// The keys that the object may have, or of which it has one.
fn listed(alloc: Global, parts: &[Part], ones: bool) -> Result<String, AllocError> {
    let some = parts.iter().filter(|it| !ones || it.role == Role::One);
    let words: Vec<&str> = some.map(|it| it.word).collect(alloc)?;
    words.join(alloc, ", ")
}

/// The last value after a key.
fn find<'n, 'a>(values: &'n [Node<'a>], word: &str) -> Option<&'n Node<'a>> {
    values.iter().rfind(|value| value.key == word)
}

/// What an object with these values is called, with the number if it is a refusal, and its keys, if it is a reply whose
/// values say of which form.
fn form<'a>(node: &Node<'_>, values: &[Node<'a>]) -> Option<(&'static str, &'a str, Keys)> {
    let has = |word: &str| find(values, word).is_some();
    match find(values, key!(refused)) {
        _ if node.key != key!(reply) => None,
        Some(number) => Some(("refusal ", number.text, REFUSAL)),
        None if has(key!(kind)) || has(key!(name)) => Some(("what was made", "", MADE)),
        None if has(key!(rows)) || has(key!(start)) => Some(("a statement", "", STATEMENT)),
        None => None,
    }
}

/// A number that isn't a whole one of those that a line may have: words on its range.
fn wrong_number(alloc: Global, node: &Node<'_>, what: &str, (least, most): Range) -> Checked {
    let (at, text) = (node.start, node.text);
    let (shown, all) = (quote(alloc, text)?, number(alloc, text)?);
    let (from, to) = (number(alloc, least)?, number(alloc, most)?);
    match text {
        it if it.contains('.') =>
            fault!(alloc, at => "{shown} has a point, and {what} is a whole number"),
        it if it.contains(['e', 'E']) =>
            fault!(alloc, at => "{shown} has an exponent, and {what} is written with digits alone"),
        it if it.starts_with('-') && 0 <= least =>
            fault!(alloc, at => "{shown} has a sign, and {what} is {from} to {to}"),
        _ => fault!(alloc, at => "{all} is out of range: {what} is {from} to {to}"),
    }
}

/// Whether digits, maybe after a sign, are a number of the range; -0 is none.
fn is_in_range(digits: &str, (least, most): Range) -> bool {
    let is_within = |it: i128| i128::from(least) <= it && it <= i128::from(most);
    digits != "-0" && digits.parse::<i128>().is_ok_and(is_within)
}

/// Whether a bank may have an account of this name, in quotes.
fn is_account(alloc: Global, name: &str) -> Result<bool, AllocError> {
    let line = format!(in alloc; "{{\"accounts\":[[{name},0]],\"sites\":2,\"version\":1}}")?;
    match open_config(alloc, line.as_bytes()) {
        Err(LineFault::OutOfMemory) => Err(AllocError),
        read => Ok(read.is_ok()),
    }
}
