//! The line and the column of a byte of a text.

ghost use Rattle.std.specs.Prelude.{◌≡◌, ◌==◌, ◌≤◌, count_by, length};
ghost use Rattle.mcv_faults.specs.TextPlace.{column_at, column_behind, line_at};

/// A place in a text: its line and its column in bytes, both from 1.
#[derive(Clone, Copy, Debug, PartialEq, Eq)]
pub struct TextPlace {
    pub line: usize,
    pub column: usize,
}

/// The place of the byte at an offset.
pub(crate) fn place_at(text: &[u8], offset: usize) -> TextPlace
    requires { offset ≤ length text.now }
    ensures line { result.line ≡ line_at text.now offset }
    ensures column { result.column ≡ column_at text.now offset }
{
    let before = &text[..offset];
    TextPlace {
        line: lines_before(before) + 1,
        column: column_behind(before),
    }
}

/// How many lines end in the bytes.
fn lines_before(before: &[u8]) -> usize
    ensures value { result ≡ count_by (λ b. b == 10) before.now }
    ensures small { result ≤ length before.now }
{
    before.iter().filter(|byte| **byte == b'\n').count()
}

/// The column behind the bytes, which begin a text.
fn column_behind(before: &[u8]) -> usize
    ensures { result ≡ column_behind before.now 1 }
{
    let mut column = 1;
    for byte in before {
        if *byte == b'\n' {
            column = 1;
        } else {
            column += 1;
        }
    }
    column
}
