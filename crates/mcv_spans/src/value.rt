//! Values, by where they stand in their text.

ghost use Rattle.std.specs.Prelude.{◌≡◌, option_map};
ghost use Rattle.mcv_spans.specs.Parts.{items_in, members_in, text_in};
ghost use Rattle.mcv_spans.specs.Place.{items_view, members_view, span_of, view};

/// Bytes of a text, from `start` up to, not including, `end`.
#[derive(Clone, Copy, Debug, PartialEq, Eq)]
pub struct Span {
    pub start: usize,
    pub end: usize,
}

/// A member of an object: its name without escapes, and its value.
#[derive(Drop)]
#[cycle(located)]
pub struct Member {
    pub name: String,
    pub value: Located,
}

/// A value, and where it stands. The members of an object come in the byte order of their names, of those with one name
/// the last in the text alone. `Text` has its text without escapes; `Other` is a number, true, false or null.
#[derive(Drop)]
#[cycle(located)]
pub enum Located {
    Object(Span, Vec<Member>),
    Array(Span, Vec<Located>),
    Text(Span, String),
    Other(Span),
}

impl Located {
    /// Where it stands.
    pub fn span(&self) -> Span
        ensures { result ≡ span_of (view self.now) }
    {
        match self {
            Located::Object(span, _) => *span,
            Located::Array(span, _) => *span,
            Located::Text(span, _) => *span,
            Located::Other(span) => *span,
        }
    }

    /// The members of an object, in the byte order of their names.
    pub fn members(&self) -> Option<&[Member]>
        ensures { option_map (λ members. members_view members.now) result ≡ members_in (view self.now) }
    {
        match self {
            Located::Object(_, members) => Some(members.as_slice()),
            _ => None,
        }
    }

    /// The values of an array.
    pub fn items(&self) -> Option<&[Located]>
        ensures { option_map (λ items. items_view items.now) result ≡ items_in (view self.now) }
    {
        match self {
            Located::Array(_, items) => Some(items.as_slice()),
            _ => None,
        }
    }

    /// The text of a text.
    pub fn text(&self) -> Option<&str>
        ensures { option_map (λ text. text.now) result ≡ text_in (view self.now) }
    {
        match self {
            Located::Text(_, text) => Some(text.as_str()),
            _ => None,
        }
    }

    /// The value of the member of this name, in an object whose members come in the byte order of their names.
    pub fn get(&self, name: &str) -> Option<&Located> {
        let members = self.members()?;
        let place = members.partition_point(|member| member.name.as_bytes() < name.as_bytes());
        let member = members.get(place)?;
        if member.name.as_str() == name {
            Some(&member.value)
        } else {
            None
        }
    }
}
