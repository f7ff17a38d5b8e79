//! Writing lines to a sink.
ghost use Rattle.std.specs.Prelude.{◌≡◌, ◌+◌, ◌<◌, ◌≤◌, ◌^◌, ◌++◌, ℕ, [], ◌∷◌, length, IfOk, OnOk, IfErr, OnErr, string_bytes};
ghost use Rattle.cell_units.specs.Text.{line_feed};
ghost use Rattle.script_runner.specs.Outside.{HasRisen, Takes, TakesFront};
ghost use Rattle.edit_script.specs.Printed.{refusal_text};
ghost use Rattle.script_runner.specs.Output.{printed_with};
ghost use Rattle.script_runner.specs.Writing.{IsUnwritten};

use crate::outside::{Failed, Sink};
use crate::stop::Stop;
use cell_units::{NoMemory, Refusal, Steps};
use edit_script::{Answer, refusal_line};
use std::alloc::Global;

/// Hands the piece to the sink, and then what is left of it as often as only a part was taken. `Failed` where a write fails,
/// after a prefix of the piece.
pub fn write_piece<K: Sink>(piece: &[u8], out: &mut K) -> Result<(), Failed>
    ensures written { OnOk result (Takes piece.now (K.state out.old) (K.state out.new)) }
    ensures front { OnErr result (TakesFront piece.now (K.state out.old) (K.state out.new)) }
    ensures failed { OnErr result (HasRisen (K.state out.old).faults (K.state out.new).faults) }
{
    let mut at = 0;
    while at < piece.len() {
        at += out.write(&piece[at..])?;
    }
    Ok(())
}

/// The line with its line feed, behind a prefix.
fn with_feed(alloc: Global, prefix: &str, line: &str) -> Result<String, NoMemory>
    ensures { IfOk result
        (λ text. string_bytes text ≡ prefix.now ++ (line.now ++ line_feed ∷ [])) }
{
    let mut text = String::from_str(alloc, prefix)?;
    text.push_str(line)?;
    text.push('\n')?;
    Ok(text)
}

/// Writes the line behind a prefix, with its line feed, as one piece. It stops with `Stop::Write` where a write fails, after
/// a prefix of that piece, and with `Stop::Memory` where there is no memory, before anything is written.
pub fn write_prefixed<K: Sink>(
    alloc: Global,
    prefix: &str,
    line: &str,
    out: &mut K,
) -> Result<(), Stop>
    ensures written { OnOk result
        (Takes (prefix.now ++ (line.now ++ line_feed ∷ [])) (K.state out.old) (K.state out.new)) }
    ensures stopped { IfErr result (IsUnwritten (prefix.now ++ (line.now ++ line_feed ∷ []))
        (K.state out.old) (K.state out.new)) }
{
    let text = with_feed(alloc, prefix, line)?;
    write_piece(text.as_bytes(), out)?;
    Ok(())
}

/// Writes the line with its line feed, as `write_prefixed` without a prefix.
pub fn write_line<K: Sink>(alloc: Global, line: &str, out: &mut K) -> Result<(), Stop>
    ensures written { OnOk result
        (Takes (line.now ++ line_feed ∷ []) (K.state out.old) (K.state out.new)) }
    ensures stopped { IfErr result
        (IsUnwritten (line.now ++ line_feed ∷ []) (K.state out.old) (K.state out.new)) }
{
    write_prefixed(alloc, "", line, out)
}

/// Writes the line of a refusal behind a prefix.
pub fn write_refusal<K: Sink>(
    alloc: Global,
    prefix: &str,
    refusal: Refusal,
    out: &mut K,
) -> Result<(), Stop>
    ensures written { OnOk result (Takes (printed_with prefix.now (refusal_text refusal ∷ []))
        (K.state out.old) (K.state out.new)) }
    ensures stopped { IfErr result
        (IsUnwritten (printed_with prefix.now (refusal_text refusal ∷ []))
        (K.state out.old) (K.state out.new)) }
{
    let line = refusal_line(alloc, refusal)?;
    write_prefixed(alloc, prefix, line.as_str(), out)
}

/// Writes the lines of an answer, each behind the prefix and with its line feed, and says how many they are.
pub fn write_answer<K: Sink>(
    alloc: Global,
    prefix: &str,
    answer: &mut Answer,
    out: &mut K,
    steps: &mut Steps,
) -> Result<u64, Stop>
    requires { length answer.old < 2 ^ 64 }
    // What is written.
    ensures lines { IfOk result (λ lines. lines ≡ length answer.old) }
    ensures written { OnOk result
        (Takes (printed_with prefix.now answer.old) (K.state out.old) (K.state out.new)) }
    // What of it is written where it stops.
    ensures stopped { IfErr result (IsUnwritten (printed_with prefix.now answer.old)
        (K.state out.old) (K.state out.new)) }
    // The work.
    ensures counted { steps.old ≤ steps.new }
{
    let mut lines: u64 = 0;
    while let Some(line) = answer.next_line(alloc, steps)? {
        write_prefixed(alloc, prefix, line.as_str(), out)?;
        lines += 1;
    }
    Ok(lines)
}
