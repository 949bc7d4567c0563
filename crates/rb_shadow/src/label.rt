//! Labels of kinds. Their words are a format's, in rb_history.
/// A kind as replies show it.
#[derive(Clone, Copy, Debug, PartialEq, Eq)]
pub enum Label {
    Deposit,
    Withdraw,
    Declined,
    Interest,
    Cancel,
    Transfer,
}
