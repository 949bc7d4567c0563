//! Types whose `==` and `clone` are exact: two values are equal only if they are one and the same.
ghost use Rattle.std.specs.Prelude.{◌≡◌, ◌↔◌, IsTrue};

/// A type whose `==` is true exactly if both values are the same, and whose `clone` gives the same value.
pub trait Exact: Clone + PartialEq {
    // What `==` says.
    ghost exact: { (x y : Self) → IsTrue (Self.eq x y) ↔ (x ≡ y) };

    // What `clone` gives.
    ghost cloned: { (x y : Self) → Self.is_clone x y → y ≡ x };
}
