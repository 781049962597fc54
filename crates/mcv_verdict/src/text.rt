//! The text of a verdict.

ghost use Rattle.std.specs.Prelude.{◌≡◌, IfOk};
ghost use Rattle.mcv_verdict.specs.Text.{covered_line};

use mcv_base::push_number;
use std::alloc::{AllocError, Global};

/// The line that says that a certificate of so many pairs covers the configuration.
pub fn covered_line(alloc: Global, pairs: usize) -> Result<Vec<u8>, AllocError>
    ensures { IfOk result (λ text. text.items ≡ covered_line pairs) }
{
    let mut text = Vec::new(alloc);
    text.extend_from_slice(b"covered ")?;
    push_number(&mut text, pairs)?;
    text.extend_from_slice(b"\n")?;
    Ok(text)
}
