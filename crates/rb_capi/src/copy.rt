//! A text, copied to C.
ghost use Rattle.rb_capi.specs.Copies.{Copies};

/// Puts the text at the beginning of `out`, as much of it as fits: how many bytes the whole text has. The rest of
/// `out` is as it was.
pub fn copy_text(text: &[u8], out: &mut [u8]) -> usize
    ensures { Copies text.now out.old out.new result }
{
    let n = text.len().min(out.len());
    out[..n].copy_from_slice(&text[..n]);
    text.len()
}
