//! The handles that a text names.

ghost use Rattle.std.specs.Prelude.{◌≡◌, option_map};
ghost use Rattle.mcv_config.specs.Routes.{cut};
ghost use Rattle.mcv_places.specs.Site.{named_child, text_child};
ghost use Rattle.mcv_places.specs.View.{name_of};

use crate::name::Named;

/// What follows the first bar.
#[tactic(auto, unfolding(mcv_config::specs::Routes::cut))]
pub(crate) fn behind_bar(text: &str) -> Option<&str>
    ensures { option_map (λ t. t.now) result ≡ option_map (λ x. x.1) (cut text.now) }
{
    let (_, behind) = text.split_once('|')?;
    Some(behind)
}

/// One of the children that a text names: a server of a pool, or the one route.
#[tactic(auto, unfolding(crate::specs::Site::named_child))]
pub(crate) fn named_child(text: &str, number: usize) -> Named<'_>
    ensures { name_of result ≡ named_child text.now number }
{
    match text.strip_prefix("Pool|") {
        Some(pool) => Named::Server(pool, number),
        None => Named::Text(text),
    }
}

/// A child of the handle that a text names.
pub(crate) fn text_child(text: &str, number: usize) -> Option<Named<'_>>
    ensures { option_map name_of result ≡ text_child text.now number }
{
    let children = behind_bar(text)?;
    Some(named_child(children, number))
}
