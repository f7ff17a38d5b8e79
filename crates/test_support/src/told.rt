//! Answers in words.
ghost use Rattle.std.specs.Prelude.{◌≡◌, option_map, IfOk, Some, string_bytes};
ghost use Rattle.test_support.specs.Told.{number_told, pair_told, replaced_told};
ghost use Rattle.test_support.specs.Told.{refusal_told, refused_told, accepted_told, edited_told};

use cell_units::{Fault, NoMemory, Refusal, Shift};
use std::alloc::Global;

/// What is replaced: its start, its end, and how many come for it.
pub type Stretch = Option<(u32, u32, u32)>;

/// The three numbers of a replacement.
pub fn numbers(shift: Option<Shift>) -> Stretch
    ensures { result ≡ option_map (λ s. (s.start, s.end, s.count)) shift }
{
    shift.map(|s| (s.start, s.end, s.count))
}

/// A number, or `none`.
pub fn number(alloc: Global, number: Option<u32>) -> Result<String, NoMemory>
    ensures { IfOk result (λ told. string_bytes told ≡ number_told number) }
{
    match number {
        Some(number) => Ok(format!(in alloc; "{number}")?),
        None => Ok(String::from_str(alloc, "none")?),
    }
}

/// Two numbers, or `none`.
pub fn pair(alloc: Global, pair: Option<(u32, u32)>) -> Result<String, NoMemory>
    ensures { IfOk result (λ told. string_bytes told ≡ pair_told pair) }
{
    match pair {
        Some((first, second)) => Ok(format!(in alloc; "{first} {second}")?),
        None => Ok(String::from_str(alloc, "none")?),
    }
}

/// The start and the end of what is replaced, and how many come for it, or `none`.
pub fn replaced(alloc: Global, stretch: Stretch) -> Result<String, NoMemory>
    ensures { IfOk result (λ told. string_bytes told ≡ replaced_told stretch) }
{
    match stretch {
        Some((start, end, count)) => Ok(format!(in alloc; "{start}..{end} by {count}")?),
        None => Ok(String::from_str(alloc, "none")?),
    }
}

/// The name of a refusal.
fn name(refusal: Refusal) -> &'static str
    ensures { result.now ≡ refusal_told refusal }
{
    match refusal {
        Refusal::NotCommand => "NotCommand",
        Refusal::BadRange => "BadRange",
        Refusal::IdInUse => "IdInUse",
        Refusal::UnknownId => "UnknownId",
        Refusal::TooLong => "TooLong",
        Refusal::BadNumber => "BadNumber",
        Refusal::BadText => "BadText",
        Refusal::NothingThere => "NothingThere",
    }
}

/// `ok`, or the refusal.
pub fn refused(alloc: Global, answer: Result<(), Refusal>) -> Result<String, NoMemory>
    ensures { IfOk result (λ told. string_bytes told ≡ refused_told answer) }
{
    let told = match answer {
        Ok(()) => "ok",
        Err(refusal) => name(refusal),
    };
    Ok(String::from_str(alloc, told)?)
}

/// `ok`, or the refusal. Out of memory is no answer.
pub fn accepted(alloc: Global, answer: Result<(), Fault>) -> Result<String, NoMemory>
    ensures { IfOk result (λ told. Some (string_bytes told) ≡ accepted_told answer) }
{
    match answer {
        Ok(()) => refused(alloc, Ok(())),
        Err(Fault::Refused(refusal)) => refused(alloc, Err(refusal)),
        Err(Fault::NoMemory) => Err(NoMemory),
    }
}

/// What is replaced, or the refusal. Out of memory is no answer.
pub fn edited(alloc: Global, answer: Result<Stretch, Fault>) -> Result<String, NoMemory>
    ensures { IfOk result (λ told. Some (string_bytes told) ≡ edited_told answer) }
{
    match answer {
        Ok(stretch) => replaced(alloc, stretch),
        Err(fault) => accepted(alloc, Err(fault)),
    }
}
