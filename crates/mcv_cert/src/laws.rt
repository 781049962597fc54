//! Laws of what texts say.

ghost use Rattle.std.specs.Prelude.{◌≡◌, ◌≤◌, ℕ, List, length};
ghost use Rattle.mcv_cert.specs.Reading.{Reading, Says, pairs, text_limit};
ghost use Rattle.mcv_cert.specs.Text.{certificate_text};

use crate::certificate::Certificate;

/// A text says one thing.
pub fn one_answer()
    ensures { (text : List ℕ) (r s : Reading) → Says text r → Says text s → r ≡ s }
{}

/// The text of a certificate, up to the limit, says its window and its pairs and nothing else.
pub fn text_is_read(certificate: &Certificate)
    ensures said { let c = certificate.now in length (certificate_text c.window c.pairs) ≤ text_limit → Says (certificate_text c.window c.pairs) (pairs c.window c.pairs) }
    ensures alone { let c = certificate.now in (r : Reading) → length (certificate_text c.window c.pairs) ≤ text_limit → Says (certificate_text c.window c.pairs) r → r ≡ pairs c.window c.pairs }
{
    let _ = certificate.pairs();
    let _ = certificate.window();
}
