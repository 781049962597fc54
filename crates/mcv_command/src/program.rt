//! The program, over any reader and writer in place of standard input and output, any files and any proxy.

ghost use Rattle.std.specs.Prelude.{◌≡◌, ◌≢◌, ℕ, None, Some, Err, false, true, IfErr, IfOk, map};
ghost use Rattle.mcv_command.specs.Program.{AsksAnyRun, AsksAnySpool, AsksReport, GivesJson, Held, IsDone, IsDrawingStop, IsDrawn, IsJudgedAs, IsJudgingFault, IsListed, IsListedTo, IsListingStop, IsMended, IsMendedAs, IsMendingStop, IsPatched, IsReportedStop, IsServed, IsStop, ending_of, shown_of};
ghost use Rattle.mcv_command.specs.declared.stop.Stop.TheVariants.{Run, Damaged};
ghost use Rattle.mcv_input.specs.declared.fault.RunFault.TheVariants.{Device, Memory};
ghost use Rattle.mcv_words.specs.Words.{AsksSpool, SpoolOrder, order_of, spool_order_of};

use crate::files::NamedFiles;
use crate::proxy::Proxy;
use crate::stop::{Ending, Stop};
use mcv_input::{RunFault, write_text};
use mcv_legs::run_legs;
use mcv_mend::run_mend;
use mcv_mend_patch::run_patch;
use mcv_picture::run_draw;
use mcv_records::{Shown, write_records};
use mcv_show::run_check_as;
use mcv_verdict::{Judgement, Verdict, judge_input};
use mcv_words::{CheckOptions, Job, LineFault, RunOptions, SpoolOptions, read_words};
use std::alloc::Global;
use std::io::{Read, Write};
use std::sync::Arc;

/// The most bytes that are read of a certificate's file: one more than a certificate's text may have.
const CERTIFICATE_LIMIT: u64 = 268_435_457;

/// How the program ends where a configuration was judged.
fn ending_of(verdict: Verdict) -> Ending
    ensures { result ≡ ending_of verdict }
{
    match verdict {
        Verdict::Covered(_) => Ending::Done,
        Verdict::Lost => Ending::Lost,
    }
}

/// Judges a configuration by a certificate that is made here, as the options say.
fn judge<R: Read, W: Write>(
    alloc: Global,
    options: CheckOptions,
    reader: &mut R,
    writer: &mut W,
) -> Result<Ending, Stop>
    ensures done { (held : Held) → IfOk result (IsJudgedAs options held None (R.remaining reader.old) (W.contents writer.old) (W.contents writer.new)) }
    ensures stop { (held : Held) → IfErr result (IsJudgingFault held None options.window.seconds (R.remaining reader.old)) }
    ensures silent { options.json ≡ false → IfErr result (λ stop. stop ≢ Run Device → W.contents writer.new ≡ W.contents writer.old) }
    ensures reported { options.json ≡ true → IfErr result (IsReportedStop (R.remaining reader.old) (W.contents writer.old) (W.contents writer.new)) }
{
    let verdict = run_check_as(alloc, reader, writer, None, options)?;
    Ok(ending_of(verdict))
}

/// Judges a configuration by the certificate in the file of this name, which is read first, as the options say.
fn judge_by<R: Read, W: Write, F: NamedFiles>(
    alloc: Global,
    name: &str,
    options: CheckOptions,
    files: &F,
    reader: &mut R,
    writer: &mut W,
) -> Result<Ending, Stop>
    ensures done { IfOk result (IsJudgedAs options (F.held files.now) (Some name.now) (R.remaining reader.old) (W.contents writer.old) (W.contents writer.new)) }
    ensures stop { IfErr result (IsJudgingFault (F.held files.now) (Some name.now) options.window.seconds (R.remaining reader.old)) }
    ensures silent { options.json ≡ false → IfErr result (λ stop. stop ≢ Run Device → W.contents writer.new ≡ W.contents writer.old) }
    ensures reported { options.json ≡ true → IfErr result (IsReportedStop (R.remaining reader.old) (W.contents writer.old) (W.contents writer.new)) }
{
    let text = files.read_named(alloc, name, CERTIFICATE_LIMIT)?;
    let verdict = run_check_as(alloc, reader, writer, Some(text.as_slice()), options)?;
    Ok(ending_of(verdict))
}

/// Writes the picture of a configuration, as SVG or for Graphviz.
fn draw<R: Read, W: Write>(
    alloc: Global,
    is_dot: bool,
    reader: &mut R,
    writer: &mut W,
) -> Result<Ending, Stop>
    ensures done { IfOk result (IsDrawn is_dot (R.remaining reader.old) (W.contents writer.old) (W.contents writer.new)) }
    ensures stop { IfErr result (IsDrawingStop (R.remaining reader.old)) }
    ensures silent { IfErr result (λ stop. stop ≢ Run Device → W.contents writer.new ≡ W.contents writer.old) }
{
    let _verdict = run_draw(alloc, reader, writer, 0, is_dot)?;
    Ok(Ending::Done)
}

/// Writes a configuration mended, or the patch that mends it.
fn mend<R: Read, W: Write>(
    alloc: Global,
    patch: bool,
    reader: &mut R,
    writer: &mut W,
) -> Result<Ending, Stop>
    ensures done { IfOk result (IsMendedAs patch (R.remaining reader.old) (W.contents writer.old) (W.contents writer.new)) }
    ensures stop { IfErr result (IsMendingStop (R.remaining reader.old)) }
    ensures silent { IfErr result (λ stop. stop ≢ Run Device → W.contents writer.new ≡ W.contents writer.old) }
{
    if patch {
        write_patch(alloc, reader, writer)
    } else {
        write_mended(alloc, reader, writer)
    }
}

/// Writes the patch that adds to a configuration the legs that its deletes lack.
fn write_patch<R: Read, W: Write>(
    alloc: Global,
    reader: &mut R,
    writer: &mut W,
) -> Result<Ending, Stop>
    ensures done { IfOk result (IsPatched (R.remaining reader.old) (W.contents writer.old) (W.contents writer.new)) }
    ensures stop { IfErr result (IsMendingStop (R.remaining reader.old)) }
    ensures silent { IfErr result (λ stop. stop ≢ Run Device → W.contents writer.new ≡ W.contents writer.old) }
{
    let _mending = run_patch(alloc, reader, writer)?;
    Ok(Ending::Done)
}

/// Writes a configuration with the legs that its deletes lack, and one that is covered as it is.
fn write_mended<R: Read, W: Write>(
    alloc: Global,
    reader: &mut R,
    writer: &mut W,
) -> Result<Ending, Stop>
    ensures done { IfOk result (IsMended (R.remaining reader.old) (W.contents writer.old) (W.contents writer.new)) }
    ensures stop { IfErr result (IsMendingStop (R.remaining reader.old)) }
    ensures silent { IfErr result (λ stop. stop ≢ Run Device → W.contents writer.new ≡ W.contents writer.old) }
{
    let _mending = run_mend(alloc, reader, writer)?;
    Ok(Ending::Done)
}

/// Judges a configuration, and has it served where it is covered; else the verdict is written.
fn serve<R: Read, W: Write, P: Proxy>(
    alloc: Global,
    proxy: &P,
    options: RunOptions<'_>,
    reader: &mut R,
    writer: &mut W,
) -> Result<Ending, Stop>
    ensures done { (held : Held) → IfOk result (IsServed held (P.serves proxy.now) (order_of options.entry) (R.remaining reader.old) (W.contents writer.old) (W.contents writer.new)) }
    ensures stop { (held : Held) → IfErr result (IsJudgingFault held None options.entry.settings.window.seconds (R.remaining reader.old)) }
    ensures silent { IfErr result (λ stop. stop ≢ Run Device → stop ≢ Run Memory → W.contents writer.new ≡ W.contents writer.old) }
{
    match judge_input(alloc, reader, options.settings.window.seconds)? {
        Judgement::Covered { accepted, .. } => {
            // The routes are covered.
            let _ = accepted.routes();
            let Ok(shared) = Arc::new(alloc, accepted) else {
                return Err(Stop::Run(RunFault::Memory));
            };
            proxy.serve(alloc, shared, options, writer)?;
            Ok(Ending::Done)
        }
        Judgement::Lost { finding } => {
            write_text(writer, finding.as_slice())?;
            Ok(ending_of(Verdict::Lost))
        }
    }
}

/// Which records are shown.
fn shown_of(all: bool) -> Shown
    ensures { result ≡ shown_of all }
{
    if all { Shown::All } else { Shown::Pending }
}

/// Shows the records of a spool's file.
fn list_records<W: Write, F: NamedFiles>(
    alloc: Global,
    options: SpoolOptions<'_>,
    files: &F,
    writer: &mut W,
) -> Result<Ending, Stop>
    ensures done { IfOk result (λ ending. IsListed (F.held files.now) (spool_order_of options.entry) (W.contents writer.old) (W.contents writer.new) × (ending ≡ Ending.Done)) }
    ensures stop { IfErr result IsListingStop }
    ensures listed { (slot : ℕ) → result ≡ Err (Damaged slot) → IsListedTo slot (F.held files.now) (spool_order_of options.entry) (W.contents writer.old) (W.contents writer.new) }
{
    let mut view = files.view(options.file)?;
    match write_records(alloc, &mut view, writer, shown_of(options.all)) {
        Ok(()) => Ok(Ending::Done),
        Err(fault) => Err(Stop::from(fault)),
    }
}

/// Does what the words of a command line ask for, of which the first is the program's name: help,
/// legs, verdicts, a picture, a mended configuration and records are written to the writer, and so is what the proxy says of itself.
pub fn run_words<'a, R: Read, W: Write, F: NamedFiles, P: Proxy>(
    alloc: Global,
    words: &'a [&'a str],
    files: &F,
    proxy: &P,
    reader: &mut R,
    writer: &mut W,
) -> Result<Ending, Stop>
    ensures done { IfOk result (IsDone (map (λ w. w.now) words.entry.now) (F.held files.now) (P.serves proxy.now) (R.remaining reader.old)
        (W.contents writer.old) (W.contents writer.new)) }
    ensures stop { IfErr result (IsStop (map (λ w. w.now) words.entry.now) (F.held files.now) (R.remaining reader.old)) }
    ensures silent { IfErr result (λ stop. stop ≢ Run Device → (stop ≡ Run Memory → ¬ AsksAnyRun (map (λ w. w.now) words.entry.now))
        → ¬ AsksAnySpool (map (λ w. w.now) words.entry.now) → ¬ AsksReport (map (λ w. w.now) words.entry.now)
        → W.contents writer.new ≡ W.contents writer.old) }
    ensures reported { GivesJson (map (λ w. w.now) words.entry.now) → IfErr result (IsReportedStop (R.remaining reader.old) (W.contents writer.old) (W.contents writer.new)) }
    ensures listed { (slot : ℕ) → result ≡ Err (Damaged slot) → (order : SpoolOrder) × AsksSpool (map (λ w. w.now) words.entry.now) order
        × IsListedTo slot (F.held files.now) order (W.contents writer.old) (W.contents writer.new) }
{
    match read_words(alloc, words) {
        Ok(Job::Legs { at }) => {
            run_legs(alloc, reader, writer, at)?;
            Ok(Ending::Done)
        }
        Ok(
            Job::Check {
                cert: None,
                options,
            },
        ) => judge(alloc, options, reader, writer),
        Ok(
            Job::Check {
                cert: Some(name),
                options,
            },
        ) => judge_by(alloc, name, options, files, reader, writer),
        Ok(Job::Draw { dot }) => draw(alloc, dot, reader, writer),
        Ok(Job::Mend { patch }) => mend(alloc, patch, reader, writer),
        Ok(Job::Run(options)) => serve(alloc, proxy, options, reader, writer),
        Ok(Job::Spool(options)) => list_records(alloc, options, files, writer),
        Err(LineFault::Help(text)) => {
            write_text(writer, text.as_bytes())?;
            Ok(Ending::Done)
        }
        Err(LineFault::Version) => {
            write_text(writer, b"mcv 1\n")?;
            Ok(Ending::Done)
        }
        Err(LineFault::BadLine) => Err(Stop::BadLine),
        Err(LineFault::Memory) => Err(Stop::Run(RunFault::Memory)),
    }
}
