//! The route handles of a configuration, by where they stand in its text.

use crate::fault::MendFault;
use crate::splice::at_span;
use mcv_names::{Handle, Many, Selector, default_key, handle_named, policies_key};
use mcv_spans::{Located, Member, push_quoted};

/// The most steps that a walk goes down.
const STEP_LIMIT: usize = 64;

/// A configuration's text, and where its values stand.
#[derive(Clone, Copy)]
pub struct Source<'t> {
    pub text: &'t [u8],
    pub root: &'t Located,
}

/// A handle: a value of the text, what the text of such a value names below it, or a server of a pool by itself.
#[derive(Clone, Copy)]
pub enum Place<'t> {
    Value(&'t Located),
    Text(&'t str),
    Server(&'t str, usize),
}

/// The handle that a text names.
fn text_kind(text: &str) -> Option<Handle> {
    match text.split_once('|') {
        Some((name, _)) => handle_named(name).ok(),
        None => handle_named(text).ok(),
    }
}

/// The child with this number of a handle whose children a text names.
fn text_child(text: &str, number: usize) -> Option<Place<'_>> {
    if let Some(pool) = text.strip_prefix("Pool|") {
        return Some(Place::Server(pool, number));
    }
    if number == 0 {
        Some(Place::Text(text))
    } else {
        None
    }
}

/// The child with this number of a handle that a text names.
fn child_of_text(text: &str, number: usize) -> Option<Place<'_>> {
    let (_, rest) = text.split_once('|')?;
    match text_kind(text)? {
        Handle::Many(_) => text_child(rest, number),
        _ => None,
    }
}

/// The child with this number of these `children`.
fn child_of_children(children: &Located, number: usize) -> Option<Place<'_>> {
    if let Some(text) = children.text() {
        return text_child(text, number);
    }
    if let Some(items) = children.items() {
        return Some(Place::Value(items.get(number)?));
    }
    if number == 0 {
        Some(Place::Value(children))
    } else {
        None
    }
}

/// The route of a selector's policy with this number, by the names' order; that for all else behind them.
fn policy(value: &Located, selector: Selector, number: usize) -> Option<&Located> {
    let policies: &[Member] = match value.get(policies_key(selector)) {
        Some(policies) => policies.members()?,
        None => &[],
    };
    match policies.get(number) {
        Some(member) => Some(&member.value),
        None => value.get(default_key(selector)),
    }
}

/// The child with this number of a handle that an object names.
fn child_of_value(value: &Located, handle: Handle, number: usize) -> Option<Place<'_>> {
    match handle {
        Handle::Pool => {
            let shadow = value.get("shadows")?.items()?.get(number)?;
            Some(Place::Value(shadow.get("target")?))
        }
        Handle::Null | Handle::Error => None,
        Handle::Many(_) => child_of_children(value.get("children")?, number),
        Handle::WarmUp => {
            let key = if number == 1 { "warm" } else { "cold" };
            Some(Place::Value(value.get(key)?))
        }
        Handle::Migrate => {
            let key = if number == 0 { "from" } else { "to" };
            Some(Place::Value(value.get(key)?))
        }
        Handle::Selector(selector) => Some(Place::Value(policy(value, selector, number)?)),
    }
}

impl<'t> Place<'t> {
    /// Which handle it is.
    pub fn kind(self) -> Option<Handle> {
        match self {
            Place::Value(value) => match value.text() {
                Some(text) => text_kind(text),
                None => handle_named(value.get("type")?.text()?).ok(),
            },
            Place::Text(text) => text_kind(text),
            Place::Server(_, _) => Some(Handle::Pool),
        }
    }

    /// Its child with this number.
    pub fn child(self, number: usize) -> Option<Place<'t>> {
        match self {
            Place::Value(value) => match value.text() {
                Some(text) => child_of_text(text, number),
                None => child_of_value(value, self.kind()?, number),
            },
            Place::Text(text) => child_of_text(text, number),
            Place::Server(_, _) => None,
        }
    }

    /// The child that a delete takes, of a handle that has one alone for deletes and others for other operations.
    fn child_of_delete(self) -> Option<Place<'t>> {
        match self.kind()? {
            Handle::WarmUp | Handle::Many(Many::MissFailover) => self.child(0),
            Handle::Selector(Selector::Operation) => match self {
                Place::Value(value) => Some(Place::Value(operation_child(value, "delete")?)),
                _ => None,
            },
            _ => None,
        }
    }

    /// The handle that a delete comes to below warm-ups, searches by misses and selectors by operation.
    pub fn peeled(self) -> Place<'t> {
        let mut place = self;
        for _ in 0..STEP_LIMIT {
            match place.child_of_delete() {
                Some(child) => place = child,
                None => return place,
            }
        }
        place
    }
}

/// The route that a selector by operation takes for an operation.
pub fn operation_child<'t>(value: &'t Located, name: &str) -> Option<&'t Located> {
    if let Some(policies) = value.get("operation_policies") {
        if let Some(route) = policies.get(name) {
            return Some(route);
        }
    }
    value.get("default_policy")
}

impl<'t> Source<'t> {
    /// The value of the route with this number.
    pub fn route(self, number: usize) -> Option<&'t Located> {
        match self.root.get("routes") {
            Some(routes) => routes.items()?.get(number)?.get("route"),
            None => self.root.get("route"),
        }
    }

    /// The handle at a place of the route with this number.
    pub fn handle(self, route: usize, steps: &[usize]) -> Option<Place<'t>> {
        let mut place = Place::Value(self.route(route)?);
        for step in steps {
            place = place.child(*step)?;
        }
        Some(place)
    }

    /// Adds a value's text.
    pub fn push_value(self, out: &mut Vec<u8>, value: &Located) -> Result<(), MendFault> {
        out.extend_from_slice(at_span(self.text, value.span())?)?;
        Ok(())
    }

    /// Adds a handle's text.
    pub fn push_place(self, out: &mut Vec<u8>, place: Place<'t>) -> Result<(), MendFault> {
        match place {
            Place::Value(value) => self.push_value(out, value),
            Place::Text(text) => Ok(push_quoted(out, text.as_bytes())?),
            Place::Server(pool, index) => self.push_server(out, pool, index),
        }
    }

    /// Adds a route to a server of a pool by itself.
    fn push_server(self, out: &mut Vec<u8>, pool: &str, index: usize) -> Result<(), MendFault> {
        let server = self.server(pool, index).ok_or(MendFault::GaveUp)?;
        out.extend_from_slice(b"{\"type\": \"PoolRoute\", \"pool\": {\"servers\": [")?;
        self.push_value(out, server)?;
        out.extend_from_slice(b"]}}")?;
        Ok(())
    }

    /// The value of a server of a pool.
    fn server(self, pool: &str, index: usize) -> Option<&'t Located> {
        self.root
            .get("pools")?
            .get(pool)?
            .get("servers")?
            .items()?
            .get(index)
    }

    /// Adds a PoolRoute's text, without its shadows.
    pub fn push_leaf(self, out: &mut Vec<u8>, place: Place<'t>) -> Result<(), MendFault> {
        let Place::Value(value) = place else {
            return self.push_place(out, place);
        };
        if value.text().is_some() {
            return self.push_value(out, value);
        }
        let pool = value.get("pool").ok_or(MendFault::GaveUp)?;
        out.extend_from_slice(b"{\"type\": \"PoolRoute\", \"pool\": ")?;
        self.push_value(out, pool)?;
        if let Some(hash) = value.get("hash") {
            out.extend_from_slice(b", \"hash\": ")?;
            self.push_value(out, hash)?;
        }
        out.extend_from_slice(b"}")?;
        Ok(())
    }
}
