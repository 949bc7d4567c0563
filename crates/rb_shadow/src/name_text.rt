//! The text of names: `B0.1` for the first blue operation of site 0, `R1` for the first red one.
ghost use Rattle.std.specs.Prelude.{◌≡◌, ◌++◌, decimal, string_bytes, IfSome, OnOk, OnErr};
ghost use Rattle.rb_shadow.specs.NameText.{name_text, name_of, IsName};
ghost use Rattle.rb_shadow.specs.declared.op_name.OpName.{OpName};

use crate::OpName;
use itoa::Buffer;
use rb_money::read_number;
use std::alloc::AllocError;

/// Adds the text of the name at the end of `out`, which an error leaves as it was.
pub fn write_name(name: OpName, out: &mut String) -> Result<(), AllocError>
    ensures ok { OnOk result (string_bytes out.new ≡ string_bytes out.old ++ name_text name) }
    ensures err { OnErr result (string_bytes out.new ≡ string_bytes out.old) }
{
    match name {
        OpName::Blue { site, n } => {
            let mut site_digits = Buffer::new();
            let mut digits = Buffer::new();
            let site_text = site_digits.format(site);
            let number = digits.format(n);
            out.reserve(2 + site_text.len() + number.len())?;
            out.push('B')?;
            out.push_str(site_text)?;
            out.push('.')?;
            out.push_str(number)
        }
        OpName::Red { n } => {
            let mut digits = Buffer::new();
            let number = digits.format(n);
            out.reserve(1 + number.len())?;
            out.push('R')?;
            out.push_str(number)
        }
    }
}

/// The name that this is the text of, as `write_name` writes it and in no other spelling. `None` for any
/// other text.
pub fn read_name(text: &str) -> Option<OpName>
    ensures value { result ≡ name_of text.now }
    ensures found { IfSome result (λ name. text.now ≡ name_text name) }
    ensures only { (name : OpName) → IsName name → text.now ≡ name_text name → result ≡ Some name }
{
    parse_name(text)
}

fn parse_name(text: &str) -> Option<OpName>
    ensures range { IfSome result IsName }
    ensures found { IfSome result (λ name. text.now ≡ name_text name) }
    ensures only { (name : OpName) → IsName name → text.now ≡ name_text name → result ≡ Some name }
{
    if let Some(number) = text.strip_prefix('R') {
        let n = read_number(number)?;
        return Some(OpName::Red { n });
    }
    let (site, number) = text.strip_prefix('B')?.split_once('.')?;
    let site = u8::try_from(read_number(site)?).ok()?;
    let n = read_number(number)?;
    Some(OpName::Blue { site, n })
}
