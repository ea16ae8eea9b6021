//! The lines of metrics, in Prometheus' text format 0.0.4. Out of memory is the only error of each.

ghost use Rattle.std.specs.Prelude.{◌≡◌, ◌++◌, OnOk, codes, decimal, string_bytes};
ghost use Rattle.sig_counts.specs.Tallies as spec;

use itoa::Buffer;
use sig_json::Memory;

/// Puts the line of a label last: what opens the label's text, that text, which needs no escape, and its number.
#[tactic(auto, unfolding(crate::specs::Tallies::line))]
pub fn put_line(text: &mut String, front: &str, label: &str, number: u64) -> Result<(), Memory>
    ensures { OnOk result (string_bytes text.new ≡ string_bytes text.old ++ spec.line front.now label.now number) }
{
    text.push_str(front)?;
    text.push_str(label)?;
    text.push_str("\"} ")?;
    put_number(text, number)?;
    text.push_str("\n")?;
    Ok(())
}

/// Puts the line of a metric without labels last: what stands before its number, and that.
#[tactic(auto, unfolding(crate::specs::Tallies::value))]
pub fn put_value(text: &mut String, front: &str, number: u64) -> Result<(), Memory>
    ensures { OnOk result (string_bytes text.new ≡ string_bytes text.old ++ spec.value front.now number) }
{
    text.push_str(front)?;
    put_number(text, number)?;
    text.push_str("\n")?;
    Ok(())
}

/// Puts a number last, in decimal digits.
pub fn put_number(text: &mut String, number: u64) -> Result<(), Memory>
    ensures { OnOk result (string_bytes text.new ≡ string_bytes text.old ++ decimal number) }
{
    let mut digits = Buffer::new();
    text.push_str(digits.format(number))?;
    Ok(())
}
