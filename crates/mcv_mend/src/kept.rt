//! Whether a text is another one with insertions.

ghost use Rattle.std.specs.Prelude.{◌≡◌, ◌<◌, IsTrue, length, slice_index};
ghost use Rattle.mcv_mend.specs.Kept.{IsKeptIn};

/// Whether these bytes have this one at the index.
fn is_at(bytes: &[u8], index: usize, byte: u8) -> bool
    ensures within { IsTrue result → index < length bytes.now }
    ensures same { IsTrue result → slice_index bytes.now index ≡ byte }
{
    if index < bytes.len() {
        bytes[index] == byte
    } else {
        false
    }
}

/// Whether each byte of the input is in the text, in order.
pub fn is_kept(input: &[u8], text: &[u8]) -> bool
    ensures { IsTrue result → IsKeptIn input.now text.now }
{
    let mut kept: usize = 0;
    for byte in text {
        if is_at(input, kept, *byte) {
            kept += 1;
        }
    }
    kept == input.len()
}
