//! Comparisons of what was found with what is wanted, as in rb_tests, whose own are for its tests alone. Each is one
//! function, proved once: `assert_eq!` in its place is proved anew wherever it is written.
use std::fmt::Debug;
use std::process::Abort;

/// The two values are equal. A failure shows both.
pub fn equal<T: PartialEq + Debug + Drop>(rt: &impl Abort, found: T, wanted: T) {
    assert_eq!(rt; found, wanted);
}

/// The fact holds. A failure shows its words.
pub fn holds(rt: &impl Abort, words: &str, fact: bool) {
    assert!(rt; fact, "{words}");
}
