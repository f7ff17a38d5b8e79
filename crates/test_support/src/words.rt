//! Texts that random changes put in, and what else they draw.
ghost use Rattle.std.specs.Prelude.{◌≡◌, ◌+◌, ◌%◌, ◌^◌, ◌==◌, [], get_or, length, max, min, if◌then◌else◌};
ghost use Rattle.cell_units.specs.declared.place.Bias.TheVariants.{Left, Right};
ghost use Rattle.cell_units.specs.declared.place.Side.TheVariants.{Above, Below};
ghost use Rattle.cell_units.specs.Text.{clean};
ghost use Rattle.generated_input.specs.Drawing.{draw};
ghost use Rattle.test_support.specs.Words.{given_text, line_texts, widths};

use cell_units::{Bias, Side};
use generated_input::Generator;

/// How many texts with line breaks there are.
pub const GIVEN_COUNT: u32 = 6;

/// The text of a number, with line breaks of all kinds, as it is given.
pub fn given(number: u32) -> &'static str
    ensures { result.now ≡ given_text number }
{
    match number {
        1 => ">",
        2 => "é",
        3 => "x\r\ny",
        4 => "\r",
        5 => "a\n\n",
        _ => "",
    }
}

/// The same without carriage returns.
pub fn cleaned(number: u32) -> &'static str
    ensures { result.now ≡ clean (given_text number) }
{
    match number {
        1 => ">",
        2 => "é",
        3 => "x\ny",
        4 => "\n",
        5 => "a\n\n",
        _ => "",
    }
}

/// How many texts that are wrapped there are.
const LINE_TEXT_COUNT: u32 = 11;

/// One of the texts that are wrapped.
pub fn drawn_text(generator: &mut Generator) -> &'static str
    ensures value { result.now ≡ get_or line_texts (draw (length line_texts) generator.old.state).value [] }
    ensures state { generator.new.state ≡ (draw (length line_texts) generator.old.state).state }
{
    match generator.below(LINE_TEXT_COUNT) {
        1 => "a",
        2 => " ",
        3 => "bb cc",
        4 => "\n",
        5 => "dd\nee ff",
        6 => "\tg",
        7 => "hh ii jj kk",
        8 => "  m",
        9 => "\n\n",
        10 => "nnnnnnnnnn",
        _ => "",
    }
}

/// How many widths there are.
const WIDTH_COUNT: u32 = 6;

/// One of the widths.
pub fn drawn_width(generator: &mut Generator) -> u32
    ensures value { result ≡ get_or widths (draw (length widths) generator.old.state).value 0 }
    ensures state { generator.new.state ≡ (draw (length widths) generator.old.state).state }
{
    match generator.below(WIDTH_COUNT) {
        1 => 4,
        2 => 5,
        3 => 8,
        4 => 12,
        5 => 30,
        _ => 0,
    }
}

/// One of the biases.
pub fn drawn_bias(generator: &mut Generator) -> Bias
    ensures value { result ≡ (if (draw 2 generator.old.state).value == 0 then Left else Right) }
    ensures state { generator.new.state ≡ (draw 2 generator.old.state).state }
{
    if generator.below(2) == 0 {
        Bias::Left
    } else {
        Bias::Right
    }
}

/// One of the sides.
pub fn drawn_side(generator: &mut Generator) -> Side
    ensures value { result ≡ (if (draw 2 generator.old.state).value == 0 then Above else Below) }
    ensures state { generator.new.state ≡ (draw 2 generator.old.state).state }
{
    if generator.below(2) == 0 {
        Side::Above
    } else {
        Side::Below
    }
}

/// A range that starts in a text of so many bytes, which may reach past the end. Its end is drawn from so many offsets
/// from the one before its start on.
pub fn drawn_range(generator: &mut Generator, len: u32, ends: u32) -> (u32, u32)
    ensures start { result.0
        ≡ (draw (max 1 (min (len + 1) u32.MAX)) generator.old.state).value }
    ensures end { let start = draw (max 1 (min (len + 1) u32.MAX)) generator.old.state in
        (result.1 + 1) % 2 ^ 32
        ≡ (start.value + (draw (max 1 ends) start.state).value) % 2 ^ 32 }
    ensures state { let start = draw (max 1 (min (len + 1) u32.MAX)) generator.old.state in
        generator.new.state ≡ (draw (max 1 ends) start.state).state }
{
    let start = generator.below(len.saturating_add(1));
    let end = start.wrapping_add(generator.below(ends)).wrapping_sub(1);
    (start, end)
}
