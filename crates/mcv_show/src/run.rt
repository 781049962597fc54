//! A verdict as the options ask.

ghost use Rattle.std.specs.Prelude.{◌≡◌, ◌≢◌, ℕ, List, false, true, IfErr, IfOk, IfSome, option_map, take};
ghost use Rattle.std.specs.Io.KnownBytes.{Appends};
ghost use Rattle.mcv_show.specs.AsAsked.{IsVerdictAs};
ghost use Rattle.mcv_show.specs.Reported.{IsFaultText};
ghost use Rattle.mcv_verdict.specs.Fault.{IsRunFault};

use crate::explained::run_explained;
use crate::reported::run_reported;
use mcv_input::RunFault;
use mcv_verdict::{Verdict, run_check};
use mcv_words::CheckOptions;
use std::alloc::Global;
use std::io::{Read, Write};

/// Reads a configuration and writes the verdict on it as the options ask, by the certificate whose text is given, or else
/// by one made here: the verdict's own text, as `run_check` does, and its explanation behind it where they ask for one; or the
/// report in its place. Where the configuration or the certificate is at fault, nothing but a report is written.
pub fn run_check_as<R: Read, W: Write>(
    alloc: Global,
    reader: &mut R,
    writer: &mut W,
    certificate: Option<&[u8]>,
    options: CheckOptions,
) -> Result<Verdict, RunFault>
    ensures ok { IfOk result (λ verdict. (text : List ℕ)
        × IfSome (R.remaining reader.old) (λ input. IsVerdictAs options input (option_map (λ given. given.now) certificate.entry) verdict text)
        × Appends (W.contents writer.old) (W.contents writer.new) text) }
    ensures fault { IfErr result (λ fault.
        IfSome (R.remaining reader.old) (λ input. IsRunFault input options.window.seconds (option_map (λ given. given.now) certificate.entry) fault)) }
    ensures silent { options.json ≡ false → IfErr result (λ fault. fault ≢ RunFault.Device → W.contents writer.new ≡ W.contents writer.old) }
    ensures reported { options.json ≡ true → IfErr result (λ fault. fault ≢ RunFault.Memory → fault ≢ RunFault.Device → (text : List ℕ)
        × IfSome (R.remaining reader.old) (λ input. IsFaultText (take 16777217 input) fault text) × Appends (W.contents writer.old) (W.contents writer.new) text) }
{
    let is_reported = options.json;
    if is_reported {
        return run_reported(alloc, reader, writer, certificate, options.window.seconds);
    }
    let is_explained = options.explain;
    if is_explained {
        return run_explained(alloc, reader, writer, certificate, options.window.seconds);
    }
    run_check(alloc, reader, writer, certificate, options.window.seconds)
}
