//! The values of a line in the order of its text, by the reader of JSON: where each begins, its key and its shape.

use crate::shapes::{Shape, Terms, key};
use json::{Reader, Scratch, Token};
use std::alloc::{AllocError, Global};

/// A value of a line: its place among them and that of the object or list which it is in, the name of its shape, its
/// token, a scalar's text as it is written, the end of an object or a list and how many values are in it. If it has no
/// key, that begins where it does.
#[derive(Clone, Copy)]
pub struct Node<'a> {
    pub place: usize,
    pub holder: Option<usize>,
    pub name: &'a str,
    pub token: Token<'a>,
    pub text: &'a str,
    pub start: usize,
    pub end: usize,
    pub items: usize,
    pub key: &'a str,
    pub key_start: usize,
}

/// The values of a line, up to where it is no JSON: what is no token is the last.
#[derive(Drop)]
pub struct Scan<'a> {
    pub alloc: Global,
    pub terms: Terms<'a>,
    pub nodes: Vec<Node<'a>>,
    /// The place of the innermost object or list that hasn't ended.
    holder: Option<usize>,
    /// The key before the next value, and where it begins.
    key: Option<(&'a str, usize)>,
}

impl<'a> Node<'a> {
    /// What a text says, and of other values nothing.
    pub fn said(&self) -> &'a str {
        match self.token {
            Token::String(text) => text,
            _ => "",
        }
    }
}

impl<'a> Scan<'a> {
    /// Goes over a line.
    pub fn of(
        alloc: Global,
        line: &'a str,
        terms: Terms<'a>,
        scratch: &'a mut Scratch,
    ) -> Result<Scan<'a>, AllocError> {
        let mut scan = Scan {
            alloc,
            terms,
            nodes: Vec::new(alloc),
            holder: None,
            key: None,
        };
        let mut tokens = Reader::new(line, scratch)?;
        for _ in 0..line.len() {
            let start = tokens.offset();
            if let Some(token) = tokens.next() {
                let text = line.get(start..tokens.offset()).unwrap_or("");
                scan.add(token, text.trim_end_matches([',', ' ', '\t', '\r']), start)?;
            }
        }
        Ok(scan)
    }

    /// The innermost object or list that hasn't ended, and whether it is an object.
    pub fn holder(&self) -> Option<(&Node<'a>, bool)> {
        let holder = self.nodes.get(self.holder?)?;
        Some((holder, matches!(holder.token, Token::BeginObject)))
    }

    /// A token more.
    fn add(&mut self, token: Token<'a>, text: &'a str, start: usize) -> Result<(), AllocError> {
        let (place, holder) = (self.nodes.len(), self.holder);
        match token {
            Token::Key(key) => self.key = Some((key, start)),
            Token::EndObject | Token::EndArray => {
                if let Some(node) = self.nodes.get_mut(holder.unwrap_or(place)) {
                    node.end = start;
                    self.holder = node.holder;
                }
            }
            _ => {
                let (key, key_start) = self.key.take().unwrap_or(("", start));
                let name = self.name(key).unwrap_or("");
                if let Some(node) = self.nodes.get_mut(holder.unwrap_or(place)) {
                    node.items = node.items.saturating_add(1);
                }
                if matches!(token, Token::BeginObject | Token::BeginArray) {
                    self.holder = Some(place);
                }
                self.nodes.push(Node {
                    place,
                    holder,
                    name,
                    token,
                    text,
                    start,
                    end: start,
                    items: 0,
                    key,
                    key_start,
                })?;
            }
        }
        Ok(())
    }

    /// The name of the shape of the next value, which may have a key.
    fn name(&self, key: &'a str) -> Option<&'a str> {
        let (holder, _) = self.holder()?;
        match self.terms.shape_of(holder.name) {
            Shape::Items(_, names) => names.get(holder.items).copied(),
            Shape::Every(_, name) => Some(name),
            // Elsewhere a balance is asked for by its account.
            _ if holder.key == key!(reply) && key == key!(balance) => Some(key!(start)),
            _ => Some(key),
        }
    }
}
