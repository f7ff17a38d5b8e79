//! The lines of the script, each drawn from a state.
ghost use Rattle.std.specs.Prelude.{◌≡◌, ◌<◌, ◌≤◌, ◌+◌, ◌*◌, ◌++◌, ◌^◌, OnOk, IfOk, string_bytes, string_len};
ghost use Rattle.generated_input.specs.Made.{block_line, display_line, edit_line, fold_line, inlay_line, rows_line, script_line, script_lines, width_line, word};

use crate::generator::Generator;
use cell_units::NoMemory;
use std::alloc::Global;

/// How many lines the text has, and so below what number a row is drawn.
pub(crate) const LINES: u64 = 20_000;

impl Generator {
    /// A word by itself.
    fn word_alone(&mut self, alloc: Global) -> Result<String, NoMemory>
        ensures value { IfOk result (λ text. string_bytes text ≡ (word self.old.state).value) }
        ensures state { OnOk result (self.new.state ≡ (word self.old.state).state) }
        ensures short { IfOk result (λ text. string_len text ≤ 9) }
    {
        let mut text = String::new(alloc);
        self.word(&mut text)?;
        Ok(text)
    }

    /// Appends an edit of a text of so many bytes, and says how many it has then.
    #[tactic(auto, unfolding(crate::specs::Made::edit_line))]
    fn edit(&mut self, alloc: Global, out: &mut String, text_length: u64) -> Result<u64, NoMemory>
        requires { text_length + 9 < 2 ^ 64 }
        ensures written { OnOk result (string_bytes out.new
            ≡ string_bytes out.old ++ (edit_line text_length self.old.state).value.bytes) }
        ensures length { IfOk result (λ length. length
            ≡ (edit_line text_length self.old.state).value.text_length) }
        ensures state { OnOk result (self.new.state
            ≡ (edit_line text_length self.old.state).state) }
    {
        let start = self.draw(text_length + 1);
        let end = text_length.min(start + self.draw(40));
        let word = self.word_alone(alloc)?;
        write!(out, "{{\"edit\":[[{start},{end},\"{word}\"]]}}")?;
        Ok(text_length + word.len() as u64 - (end - start))
    }

    /// Appends an inlay into a text of so many bytes.
    #[tactic(auto, unfolding(crate::specs::Made::inlay_line))]
    fn inlay(
        &mut self,
        alloc: Global,
        out: &mut String,
        id: u64,
        text_length: u64,
    ) -> Result<(), NoMemory>
        requires { text_length + 1 < 2 ^ 64 }
        ensures written { OnOk result (string_bytes out.new
            ≡ string_bytes out.old ++ (inlay_line id text_length self.old.state).value) }
        ensures state { OnOk result (self.new.state
            ≡ (inlay_line id text_length self.old.state).state) }
    {
        let offset = self.draw(text_length + 1);
        let word = self.word_alone(alloc)?;
        write!(out, "{{\"inlay\":[{id},{offset},\"right\",\": {word}\"]}}")?;
        Ok(())
    }

    /// Appends a fold of a text of so many bytes.
    #[tactic(auto, unfolding(crate::specs::Made::fold_line))]
    fn fold(&mut self, out: &mut String, id: u64, text_length: u64) -> Result<(), NoMemory>
        requires { text_length + 1 < 2 ^ 64 }
        ensures written { OnOk result (string_bytes out.new
            ≡ string_bytes out.old ++ (fold_line id text_length self.old.state).value) }
        ensures state { OnOk result (self.new.state
            ≡ (fold_line id text_length self.old.state).state) }
    {
        let start = self.draw(text_length + 1);
        let end = text_length.min(start + 1 + self.draw(200));
        write!(out, "{{\"fold\":[{id},{start},{end}]}}")?;
        Ok(())
    }

    /// Appends a block of one line.
    #[tactic(auto, unfolding(crate::specs::Made::block_line))]
    fn block(&mut self, alloc: Global, out: &mut String, id: u64) -> Result<(), NoMemory>
        ensures written { OnOk result (string_bytes out.new
            ≡ string_bytes out.old ++ (block_line id self.old.state).value) }
        ensures state { OnOk result (self.new.state ≡ (block_line id self.old.state).state) }
    {
        let row = self.draw(LINES);
        let word = self.word_alone(alloc)?;
        write!(out, "{{\"block\":[{id},\"above\",{row},[\"{word}\"]]}}")?;
        Ok(())
    }

    /// Appends a width.
    #[tactic(auto, unfolding(crate::specs::Made::width_line))]
    fn width(&mut self, out: &mut String) -> Result<(), NoMemory>
        ensures written { OnOk result (string_bytes out.new
            ≡ string_bytes out.old ++ (width_line self.old.state).value) }
        ensures state { OnOk result (self.new.state ≡ (width_line self.old.state).state) }
    {
        let width = 20 + self.draw(100);
        write!(out, "{{\"width\":{width}}}")?;
        Ok(())
    }

    /// Appends a question for five rows.
    #[tactic(auto, unfolding(crate::specs::Made::rows_line))]
    fn rows(&mut self, out: &mut String) -> Result<(), NoMemory>
        ensures written { OnOk result (string_bytes out.new
            ≡ string_bytes out.old ++ (rows_line self.old.state).value) }
        ensures state { OnOk result (self.new.state ≡ (rows_line self.old.state).state) }
    {
        let first = self.draw(LINES);
        write!(out, "{{\"rows\":[{first},5]}}")?;
        Ok(())
    }

    /// Appends a question where an offset of a text of so many bytes is shown.
    #[tactic(auto, unfolding(crate::specs::Made::display_line))]
    fn display(&mut self, out: &mut String, text_length: u64) -> Result<(), NoMemory>
        requires { text_length + 1 < 2 ^ 64 }
        ensures written { OnOk result (string_bytes out.new
            ≡ string_bytes out.old ++ (display_line text_length self.old.state).value) }
        ensures state { OnOk result (self.new.state
            ≡ (display_line text_length self.old.state).state) }
    {
        let offset = self.draw(text_length + 1);
        write!(out, "{{\"display\":[{offset},\"left\"]}}")?;
        Ok(())
    }

    /// Appends the line of a number for a text of so many bytes, and returns how many bytes the text has after it.
    fn command(
        &mut self,
        alloc: Global,
        out: &mut String,
        number: u64,
        text_length: u64,
    ) -> Result<u64, NoMemory>
        requires { text_length + 9 < 2 ^ 64 }

        // Bytes, length and state are those of the script's line that is drawn.
        ensures written { OnOk result (string_bytes out.new
            ≡ string_bytes out.old ++ (script_line number text_length self.old.state).value.bytes) }
        ensures length { IfOk result (λ length. length
            ≡ (script_line number text_length self.old.state).value.text_length) }
        ensures state { OnOk result (self.new.state
            ≡ (script_line number text_length self.old.state).state) }

        // A line makes the text longer by one word at most, of up to 9 letters.
        ensures short { IfOk result (λ length. length ≤ text_length + 9) }
    {
        match self.draw(10) {
            0..=3 => return self.edit(alloc, out, text_length),
            4 => self.inlay(alloc, out, number, text_length)?,
            5 => self.fold(out, number, text_length)?,
            6 => self.block(alloc, out, number)?,
            7 => self.width(out)?,
            8 => self.rows(out)?,
            _ => self.display(out, text_length)?,
        }
        Ok(text_length)
    }

    /// Appends so many lines of a script for a text of so many bytes.
    pub(crate) fn commands(
        &mut self,
        alloc: Global,
        out: &mut String,
        count: u64,
        text_length: u64,
    ) -> Result<(), NoMemory>
        requires { text_length + 9 * count + 1 < 2 ^ 64 }
        ensures written { OnOk result (string_bytes out.new
            ≡ string_bytes out.old ++ (script_lines count 1 text_length self.old.state).value) }
        ensures state { OnOk result (self.new.state
            ≡ (script_lines count 1 text_length self.old.state).state) }
    {
        let mut length = text_length;
        for done in 0..count {
            length = self.command(alloc, out, done + 1, length)?;
            out.push('\n')?;
        }
        Ok(())
    }
}
