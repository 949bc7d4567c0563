//! The words of kinds, from the table of keys.rt, for both readers and the writer.
ghost use Rattle.std.specs.Prelude.{◌≡◌, ◌++◌, IfSome, List, None, Some, ℕ};
ghost use Rattle.rb_history.specs.KindWords.{label_of_word, word_of};
ghost use Rattle.rb_shadow.specs.declared.label.Label.{Label as TheLabel};

use crate::keys::key;
use rb_shadow::Label;

/// A kind's word.
#[inline(always)]
pub fn word_of(kind: Label) -> &'static str
    ensures { result.now ≡ word_of kind }
{
    match kind {
        Label::Deposit => key!(deposit),
        Label::Withdraw => key!(withdraw),
        Label::Declined => key!(declined),
        Label::Interest => key!(interest),
        Label::Cancel => key!(cancel),
        Label::Transfer => key!(transfer),
    }
}

/// The kind whose word the text begins with, and the text after the word. `None` if it begins with no such word.
#[inline(always)]
pub fn strip_word(text: &str) -> Option<(Label, &str)>
    ensures some { IfSome result (λ p. text.now ≡ word_of p.0 ++ p.1.now) }
    ensures none { result ≡ None → (label : TheLabel) (rest : List ℕ) → text.now ≡ word_of label ++ rest → ⊥ }
{
    let kind = match (text.as_bytes().first(), text.as_bytes().get(2)) {
        (Some(b'd'), Some(b'p')) => Label::Deposit,
        (Some(b'd'), _) => Label::Declined,
        (Some(b'w'), _) => Label::Withdraw,
        (Some(b'i'), _) => Label::Interest,
        (Some(b't'), _) => Label::Transfer,
        _ => Label::Cancel,
    };
    let rest = text.strip_prefix(word_of(kind))?;
    Some((kind, rest))
}

/// The kind whose word this is, or `None`.
pub fn label_of_word(word: &str) -> Option<Label>
    ensures value { result ≡ label_of_word word.now }
    ensures found { IfSome result (λ label. word.now ≡ word_of label) }
    ensures only { (label : TheLabel) → word.now ≡ word_of label → result ≡ Some label }
{
    let (label, rest) = strip_word(word)?;
    if rest.is_empty() { Some(label) } else { None }
}
