//! Numbers as digits.
ghost use Rattle.std.specs.Prelude.{◌≡◌, ◌<◌, ◌^◌, ℕ, decimal, IfSome, Some};

use itoa::Buffer;

/// The number below 2^32 that these digits are the text of, with no sign and no leading zero. `None` for any
/// other text.
pub fn read_number(text: &str) -> Option<u32>
    ensures found { IfSome result (λ n. text.now ≡ decimal n) }
    ensures only { (n : ℕ) → n < 2 ^ 32 → text.now ≡ decimal n → result ≡ Some n }
{
    match text.parse::<u32>() {
        Ok(n) => {
            if Buffer::new().format(n) == text {
                Some(n)
            } else {
                None
            }
        }
        Err(_) => None,
    }
}
