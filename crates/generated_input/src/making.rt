//! The text and the script that are made from a number.
ghost use Rattle.std.specs.Prelude.{◌≡◌, ◌≤◌, length, IfOk};
ghost use Rattle.cell_units.specs.declared.limits.TheConstants.{TEXT_LIMIT};
ghost use Rattle.generated_input.specs.Made.{made_of};
ghost use Rattle.generated_input.specs.Laws.{IsPlain, script_limit};

use crate::files::Made;
use crate::generator::Generator;
use crate::script::LINES;
use cell_units::NoMemory;
use std::alloc::Global;

/// How many lines the script has.
const COMMANDS: u64 = 400;

/// The text and the script that are made from a number (*Made*).
pub fn made(alloc: Global, number: u32) -> Result<Made, NoMemory>
    ensures made { IfOk result (λ m. (m.text.items ≡ (made_of number).text)
        × (m.script.items ≡ (made_of number).script)) }
    ensures plain { IfOk result (λ m. IsPlain m.text.items × IsPlain m.script.items) }
    ensures fits { IfOk result (λ m. (length m.text.items ≤ TEXT_LIMIT)
        × (length m.script.items ≤ script_limit)) }
{
    let mut generator = Generator::new(u64::from(number));
    let mut text = String::new(alloc);
    generator.lines(&mut text, LINES)?;
    let mut script = String::new(alloc);
    generator.commands(alloc, &mut script, COMMANDS, text.len() as u64)?;
    Ok(Made {
        text: text.into_bytes(),
        script: script.into_bytes(),
    })
}

#[cfg(test)]
mod tests;
