//! The numbers, words and lines that are drawn from a state.
ghost use Rattle.std.specs.Prelude.{◌≡◌, ◌<◌, ◌≤◌, ◌++◌, ◌^◌, max, replicate, OnOk, string_bytes};
ghost use Rattle.std.specs.List.{join_with_byte};
ghost use Rattle.generated_input.specs.Drawing.{draw, times};
ghost use Rattle.generated_input.specs.Made.{line, text_lines, word};

use cell_units::NoMemory;

/// What a state is multiplied by for the next one.
const MULTIPLIER: u64 = 6_364_136_223_846_793_005;

/// What is added then.
const INCREMENT: u64 = 1_442_695_040_888_963_407;

/// A state from which all is drawn: the same state draws the same. What is drawn looks random, and is no secret.
#[derive(Drop)]
pub struct Generator {
    pub(crate) state: u64,
}

impl Generator {
    /// The generator that starts in this state.
    pub fn new(state: u64) -> Generator
        ensures { result.state ≡ state }
    {
        Generator { state }
    }

    /// The next number, which is below `bound`: the upper 31 bits of the next state of a linear congruential generator
    /// (Knuth's MMIX), modulo the bound.
    pub fn draw(&mut self, bound: u64) -> u64
        requires { 0 < bound }

        // The number and the state after it are those of a draw below the bound.
        ensures value { result ≡ (draw bound self.old.state).value }
        ensures state { self.new.state ≡ (draw bound self.old.state).state }

        // So the number is below 2 ^ 31 too, however great the bound is.
        ensures below { result < bound }
        ensures fits { result < 2 ^ 31 }
    {
        self.state = self.state.wrapping_mul(MULTIPLIER).wrapping_add(INCREMENT);
        (self.state >> 33) % bound
    }

    /// The next number, which is below the limit, or 0 where that is 0.
    pub fn below(&mut self, limit: u32) -> u32
        ensures value { result ≡ (draw (max 1 limit) self.old.state).value }
        ensures state { self.new.state ≡ (draw (max 1 limit) self.old.state).state }
        ensures below { 1 ≤ limit → result < limit }
        ensures most { result ≤ limit }
    {
        self.draw(u64::from(limit.max(1))) as u32
    }

    /// Appends a word.
    pub(crate) fn word(&mut self, out: &mut String) -> Result<(), NoMemory>
        ensures written { OnOk result (string_bytes out.new
            ≡ string_bytes out.old ++ (word self.old.state).value) }
        ensures state { OnOk result (self.new.state ≡ (word self.old.state).state) }
    {
        let letters = 1 + self.draw(9);
        for _ in 0..letters {
            let letter = b'a' + self.draw(26) as u8;
            out.push(char::from(letter))?;
        }
        Ok(())
    }

    /// Appends so many words, with one space between neighbours.
    fn words(&mut self, out: &mut String, count: u64) -> Result<(), NoMemory>
        ensures written { OnOk result (string_bytes out.new
            ≡ string_bytes out.old ++ join_with_byte 32 (times count word self.old.state).value) }
        ensures state { OnOk result (self.new.state ≡ (times count word self.old.state).state) }
    {
        for place in 0..count {
            if place > 0 {
                out.push(' ')?;
            }
            self.word(out)?;
        }
        Ok(())
    }

    /// Appends a line of the text.
    fn line(&mut self, out: &mut String) -> Result<(), NoMemory>
        ensures written { OnOk result (string_bytes out.new
            ≡ string_bytes out.old ++ (line self.old.state).value) }
        ensures state { OnOk result (self.new.state ≡ (line self.old.state).state) }
    {
        let tabs = self.draw(4);
        let words = self.draw(20);
        push_tabs(out, tabs)?;
        self.words(out, words)?;
        out.push('\n')?;
        Ok(())
    }

    /// Appends so many lines of the text.
    pub(crate) fn lines(&mut self, out: &mut String, count: u64) -> Result<(), NoMemory>
        ensures written { OnOk result (string_bytes out.new
            ≡ string_bytes out.old ++ (text_lines count self.old.state).value) }
        ensures state { OnOk result (self.new.state ≡ (text_lines count self.old.state).state) }
    {
        for _ in 0..count {
            self.line(out)?;
        }
        Ok(())
    }
}

/// Appends so many tabs.
fn push_tabs(out: &mut String, count: u64) -> Result<(), NoMemory>
    ensures { OnOk result (string_bytes out.new ≡ string_bytes out.old ++ replicate count 9) }
{
    for _ in 0..count {
        out.push('\t')?;
    }
    Ok(())
}
