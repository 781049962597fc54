//! The path from the bytes read to the bytes written.

ghost use Rattle.std.specs.Prelude.{◌≡◌, ◌≢◌, ℕ, List, None, IfErr, IfOk, IfSome};
ghost use Rattle.std.specs.Io.KnownBytes.{Appends};
ghost use Rattle.mcv_picture.specs.Drawing.{IsDrawnOn};
ghost use Rattle.mcv_verdict.specs.Fault.{IsRunFault};

use crate::drawing::drawn_routes;
use mcv_input::{RunFault, read_configuration, write_text};
use mcv_verdict::Verdict;
use std::alloc::Global;
use std::io::{Read, Write};

/// Reads a configuration and writes the picture of its routes, as SVG or, where `is_dot`, for Graphviz. Of one that can
/// lose a delete within the window the finding is marked, and stands below; of a covered one, what its certificate names.
pub fn run_draw<R: Read, W: Write>(
    alloc: Global,
    reader: &mut R,
    writer: &mut W,
    window: u64,
    is_dot: bool,
) -> Result<Verdict, RunFault>
    ensures ok { IfOk result (λ verdict. (text : List ℕ)
        × IfSome (R.remaining reader.old) (λ input. IsDrawnOn is_dot input window verdict text) × Appends (W.contents writer.old) (W.contents writer.new) text) }
    ensures fault { IfErr result (λ fault. IfSome (R.remaining reader.old) (λ input. IsRunFault input window None fault)) }
    ensures silent { IfErr result (λ fault. fault ≢ RunFault.Device → W.contents writer.new ≡ W.contents writer.old) }
{
    let routes = read_configuration(alloc, reader)?;
    let drawn = drawn_routes(alloc, routes.within(window), is_dot)?;
    write_text(writer, drawn.text.as_slice())?;
    Ok(drawn.verdict)
}
