//! What is read of a configuration: its routes, and its JSON value.

ghost use Rattle.std.specs.Prelude.{◌≡◌, IfErr, IfOk, IfSome, take};
ghost use Rattle.serde_json.specs.View.{view};
ghost use Rattle.mcv_input.specs.Fault.{AreNamedBy, IsInputFault, IsOutside};
ghost use Rattle.mcv_places.specs.Document.{IsDocument};

use mcv_input::{RunFault, read_at_most, read_routes};
use mcv_places::read_document;
use mcv_route::Routes;
use serde_json::Value;
use std::alloc::Global;
use std::io::Read;

/// The most bytes that are read of a configuration: one more than it may have.
const READ_LIMIT: u64 = 16_777_217;

/// A configuration: its JSON value, and the routes that it names.
#[derive(Drop)]
pub(crate) struct Configuration {
    pub document: Value,
    pub routes: Routes,
}

/// The text of a configuration, which is all that the reader has left; of one that is too long, the first bytes.
pub(crate) fn read_text<R: Read>(alloc: Global, reader: &mut R) -> Result<Vec<u8>, RunFault>
    ensures read { IfOk result (λ input. IfSome (R.remaining reader.old) (λ bytes. input.items ≡ take 16777217 bytes)) }
    ensures fault { IfErr result IsOutside }
{
    read_at_most(alloc, reader, READ_LIMIT)
}

/// The configuration that a text is.
pub(crate) fn configuration_of(alloc: Global, text: &[u8]) -> Result<Configuration, RunFault>
    ensures named { IfOk result (λ c. AreNamedBy text.now c.routes) }
    ensures document { IfOk result (λ c. IsDocument text.now (view c.document)) }
    ensures fault { IfErr result (IsInputFault text.now) }
{
    let routes = read_routes(alloc, text)?;
    let Some(document) = read_document(alloc, text)? else {
        unreachable!("a text that names routes is JSON")
    };
    Ok(Configuration { document, routes })
}
