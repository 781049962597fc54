//! The lines of a family.

ghost use Rattle.std.specs.Prelude.{◌≡◌, ◌++◌, OnOk};
ghost use Rattle.mcv_metrics.specs.Text.{head, label_byte, label_value, labelled, plain};
ghost use Rattle.mcv_metrics.specs.Metrics.{metric_name};

use crate::metric::Metric;
use mcv_base::push_number;
use std::alloc::AllocError;

fn push_byte(text: &mut Vec<u8>, byte: u8) -> Result<(), AllocError>
    ensures { OnOk result (text.new.items ≡ text.old.items ++ label_byte byte) }
{
    match byte {
        b'\\' => text.extend_from_slice(b"\\\\"),
        b'"' => text.extend_from_slice(b"\\\""),
        b'\n' => text.extend_from_slice(b"\\n"),
        _ => Ok(text.push(byte)?),
    }
}

/// Adds a label's value, escaped. On an error part of it may be there.
#[tactic(auto, using(mcv_base::proofs::Texts::flat_map_step))]
fn push_value(text: &mut Vec<u8>, value: &[u8]) -> Result<(), AllocError>
    ensures { OnOk result (text.new.items ≡ text.old.items ++ label_value value.now) }
{
    for byte in value {
        push_byte(text, *byte)?;
    }
    Ok(())
}

/// Adds a space, the number and the end of the line.
fn push_count(text: &mut Vec<u8>, number: u64) -> Result<(), AllocError>
    ensures { OnOk result (text.new.items ≡ plain text.old.items number) }
{
    text.extend_from_slice(b" ")?;
    push_number(text, number as usize)?;
    text.extend_from_slice(b"\n")?;
    Ok(())
}

/// Adds a sample that has no label. On an error part of it may be there.
pub(crate) fn push_plain(text: &mut Vec<u8>, metric: Metric, number: u64) -> Result<(), AllocError>
    ensures { OnOk result (text.new.items ≡ text.old.items ++ plain (metric_name metric) number) }
{
    text.extend_from_slice(metric.name().as_bytes())?;
    push_count(text, number)
}

/// A label of a sample: its name and its value.
#[derive(Clone, Copy)]
pub(crate) struct Label<'a> {
    pub(crate) name: &'static str,
    pub(crate) value: &'a [u8],
}

/// Adds a sample that has a label. On an error part of it may be there.
pub(crate) fn push_labelled(
    text: &mut Vec<u8>,
    metric: Metric,
    label: Label<'_>,
    number: u64,
) -> Result<(), AllocError>
    ensures { OnOk result (text.new.items ≡ text.old.items ++ labelled (metric_name metric) label.entry.name.now label.entry.value.now number) }
{
    text.extend_from_slice(metric.name().as_bytes())?;
    text.extend_from_slice(b"{")?;
    text.extend_from_slice(label.name.as_bytes())?;
    text.extend_from_slice(b"=\"")?;
    push_value(text, label.value)?;
    text.extend_from_slice(b"\"}")?;
    push_count(text, number)
}

/// Adds the two lines with which a family begins. On an error part of them may be there.
pub(crate) fn push_head(text: &mut Vec<u8>, metric: Metric) -> Result<(), AllocError>
    ensures { OnOk result (text.new.items ≡ text.old.items ++ head metric) }
{
    text.extend_from_slice(b"# HELP ")?;
    text.extend_from_slice(metric.name().as_bytes())?;
    text.extend_from_slice(b" ")?;
    text.extend_from_slice(metric.help().as_bytes())?;
    text.extend_from_slice(b"\n# TYPE ")?;
    text.extend_from_slice(metric.name().as_bytes())?;
    text.extend_from_slice(b" ")?;
    text.extend_from_slice(metric.kind().name().as_bytes())?;
    text.extend_from_slice(b"\n")?;
    Ok(())
}
