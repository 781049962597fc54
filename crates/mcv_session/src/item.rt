//! Whether a session ends with an item.

ghost use Rattle.std.specs.Prelude.{◌≡◌};
ghost use Rattle.mcv_text.specs.Request.{item_value};
ghost use Rattle.mcv_session.specs.Exchange.{ends};

use mcv_base::Request;
use mcv_text::{Item, Refusal};

/// Whether the session ends with the item.
pub(crate) fn ends(item: &Item) -> bool
    ensures { result ≡ ends (item_value item.now) }
{
    match item {
        Item::Asked(Request::Quit) => true,
        Item::Refused(Refusal::BadLine) | Item::Refused(Refusal::BadDataChunk) => true,
        _ => false,
    }
}
