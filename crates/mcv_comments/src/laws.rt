//! Laws of texts and their comments.

ghost use Rattle.std.specs.Prelude.{◌≡◌, ◌⊎◌, [], List, ℕ};
ghost use Rattle.mcv_comments.specs.Comments.{IsOpen, Piece, Reads, Strips};

/// A text falls into pieces in one way.
pub fn one_reading()
    ensures { (text : List ℕ) (ps qs : List Piece) → Reads text ps [] → Reads text qs [] → ps ≡ qs }
{}

/// A text has one text without its comments.
pub fn one_stripping()
    ensures { (text out other : List ℕ) → Strips text out → Strips text other → out ≡ other }
{}

/// A text with a comment that doesn't end has none.
pub fn open_or_stripped()
    ensures { (text out : List ℕ) → IsOpen text → ¬ Strips text out }
{}

/// Each text has one, or a comment that doesn't end.
pub fn stripped_or_open()
    ensures { (text : List ℕ) → IsOpen text ⊎ ((out : List ℕ) × Strips text out) }
{}
