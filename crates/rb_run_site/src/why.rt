//! The reason of a fault with which a site isn't opened, in words after two spaces. They may change: no clause says
//! that they are right.

use crate::fault::SiteFault;
use rb_history::{RequestId, read_asked_entry};
use rb_lines::text_on;
use rb_money::Config;
use rb_node::{Node, Records};
use rb_reasons::{Expected, difference_of, line_of, reason_of};
use rb_site::{Entry, Event, Reply};
use std::alloc::Global;

/// The most bytes of a reply that are shown.
const MOST_SHOWN: usize = 200;

/// Why the line of a configuration isn't taken, if that is the fault.
pub fn reason_of_config(alloc: Global, line: &[u8], fault: SiteFault) -> Option<String> {
    match fault {
        SiteFault::BadConfig { line: _ } => reason_of(alloc, Expected::Config, None, line),
        _ => None,
    }
}

/// Why a site can't go on by the journal in the file of these bytes, if that is the fault.
pub fn reason_of_journal<M: Records>(
    alloc: Global,
    node: &Node<M>,
    bytes: &[u8],
    fault: SiteFault,
) -> Option<String> {
    match fault {
        SiteFault::AnotherJournal => difference_of(alloc, node.config(), line_of(bytes, 1)),
        SiteFault::BadEntry { line } => reason_of_entry(alloc, node, line_of(bytes, line)),
        SiteFault::WrongReply { line: _ } => both_replies(alloc, node.written()),
        _ => None,
    }
}

/// Why a line isn't the site's next entry: it is no entry, or one of another site; or its id is one of an entry before
/// it; or the site writes that entry otherwise.
fn reason_of_entry<M: Records>(alloc: Global, node: &Node<M>, line: &[u8]) -> Option<String> {
    match site_of(alloc, node.config(), line) {
        None => reason_of(alloc, Expected::Entry, Some(node.config()), line),
        Some(site) if site != node.me() => {
            let me = node.me();
            format!(in alloc; "  it is an entry of site {site}, and this is site {me}").ok()
        }
        Some(_) if node.written().is_empty() || node.written() == line => {
            format!(in alloc; "  an entry before it has its id").ok()
        }
        Some(_) => format!(in alloc; "  the site writes this entry with another spelling").ok(),
    }
}

/// The site whose entry is on a line, if it is an entry and memory suffices to read it.
fn site_of(alloc: Global, config: &Config, line: &[u8]) -> Option<u8> {
    let mut id = RequestId::none();
    let mut entry = Entry {
        event: Event::Pass(0),
        reply: Reply::Taken(0),
    };
    let text = text_on(line)?;
    let (site, _written) = read_asked_entry(alloc, config, text, &mut entry, &mut id).ok()?;
    Some(site)
}

/// The reply of an entry and the site's own, each a line of these two.
fn both_replies(alloc: Global, lines: &[u8]) -> Option<String> {
    let wrong = text_on(shown(line_of(lines, 1)))?;
    let right = text_on(shown(line_of(lines, 2)))?;
    format!(in alloc; "  the line has the reply {wrong}\n  the site replies   {right}").ok()
}

/// How a reply begins.
fn shown(reply: &[u8]) -> &[u8] {
    reply.get(..MOST_SHOWN).unwrap_or(reply)
}
