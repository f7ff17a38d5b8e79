//! A text with its lines as they are wrapped.
ghost use Rattle.std.specs.Prelude.{◌≡◌, ◌+◌, ◌≤◌, [], length, map, IfErr, IfOk, OnErr, OnOk};
ghost use Rattle.cell_line.specs.Waiting.{IsNextIfAny};
ghost use Rattle.cell_units.specs.Lawful.{IsWidth};
ghost use Rattle.cell_units.specs.Layers.{plain_source};
ghost use Rattle.cell_units.specs.Text.{clean};
ghost use Rattle.text_rope.specs.Edits.{IsReplaceFault};
ghost use Rattle.wrap_map.specs.Landing.{cuts_of_run};
ghost use Rattle.wrapped_lines.specs.Changed.{IsNumberFault};
ghost use Rattle.wrapped_lines.specs.WrappedSource.{lines_of, unwrapped};
ghost use Rattle.wrapped_lines.specs.declared.lines.TheConstants.{OPENING_TAB};
ghost use Rattle.test_stages.specs.Places.{wrapped_at};
ghost use Rattle.test_stages.specs.Staged.{IsReplaced, IsWithinLimits};

use crate::cutting::wraps;
use crate::out_run::OutRun;
use cell_line::{Cuts, Run};
use cell_units::{Fault, NoMemory, Shift, Steps};
use edit_patch::Patch;
use std::alloc::Global;
use tab_map::TabSnapshot;
use text_rope::Rope;
use wrap_map::WrapSnapshot;
use wrapped_lines::WrappedLines;

/// The rows of a text.
pub type Shown = WrapSnapshot<TabSnapshot<Rope>>;

/// What a replacement of the text replaced.
#[derive(Drop)]
pub struct Change {
    /// Of the text's bytes.
    pub bytes: Shift,
    /// Of the lines. The new ones have one row each.
    pub run: Shift,
    /// The patch of rows: those of the replaced lines, replaced by one for each new line.
    pub rows: Patch,
}

/// A text and its lines at a tab size of 4, each in one row or wrapped.
pub struct StagedText {
    pub rope: Rope,
    pub lines: WrappedLines<Rope>,
    ghost of_text: { lines.source ≡ plain_source rope },
    ghost tab: { lines.tab ≡ OPENING_TAB },
    ghost one_each: { length lines.marks ≡ length (lines_of lines) },
    ghost lawful: { IsWithinLimits lines.width },
}

impl Drop for StagedText {
    fn drop(self) {
        let StagedText { rope: _, lines: _ } = self;
    }
}

impl StagedText {
    /// The text with each line in one row, to be wrapped at 80 cells.
    pub fn new(alloc: Global, rope: Rope, steps: &mut Steps) -> Result<StagedText, NoMemory>
        ensures text { IfOk result (λ made. made.rope ≡ rope) }
        ensures lines { IfOk result (λ made. made.lines ≡ unwrapped (plain_source rope)) }
        ensures counted { steps.old ≤ steps.new }
    {
        // For the proof: a text is within its limit.
        let _bytes = rope.len();
        let lines = WrappedLines::new(alloc, rope.share()?, steps)?;
        Ok(StagedText { rope, lines })
    }

    /// Sets the width at which the lines are to be wrapped, in cells. `BadNumber` where it is neither 0 nor 2 to
    /// 10,000.
    pub fn set_width(&mut self, width: u32) -> Result<(), Fault>
        // A lawful width is set, and the text and how its lines are wrapped stay.
        ensures set { OnOk result (self.new.lines ≡ record self.old.lines { width = width }) }
        ensures text { self.new.rope ≡ self.old.rope }
        ensures accepted { OnOk result (IsWidth width) }

        // Why it is refused, and what stays then.
        ensures refused { IfErr result (IsNumberFault (IsWidth width)) }
        ensures unchanged { OnErr result (self.new ≡ self.old) }
    {
        self.lines = self.lines.with_width(width)?;
        Ok(())
    }

    /// The text with another in the place of a range, with its line breaks made line feeds, and what was replaced. It
    /// is refused as the rope refuses it.
    pub fn replaced(
        &self,
        alloc: Global,
        start: u32,
        end: u32,
        put: &str,
        steps: &mut Steps,
    ) -> Result<(StagedText, Change), Fault>
        ensures replaced { let put = clean put.now in IfOk result (λ made.
            let text = made.0 in let change = made.1 in
            IsReplaced self.now.rope self.now.lines start end put text.rope text.lines
            change.bytes change.run change.rows) }
        ensures refused { IfErr result (IsReplaceFault self.now.rope start end (clean put.now)) }
        ensures counted { steps.old ≤ steps.new }
    {
        let (rope, _) = self.rope.replaced(alloc, start, end, put, steps)?;
        let kept = self.rope.len() - (end - start);
        let bytes = Shift::new(start, end, rope.len() - kept);
        let made = self.lines.after(alloc, rope.share()?, bytes, steps)?;
        let text = StagedText {
            rope,
            lines: made.lines,
        };
        let change = Change {
            bytes,
            run: made.run,
            rows: made.rows,
        };
        Ok((text, change))
    }

    /// Puts a text in the place of a range, and gives what was replaced. It is refused as the rope refuses it.
    pub fn replace(
        &mut self,
        alloc: Global,
        start: u32,
        end: u32,
        put: &str,
        steps: &mut Steps,
    ) -> Result<Change, Fault>
        ensures replaced { let put = clean put.now in IfOk result (λ change.
            IsReplaced self.old.rope self.old.lines start end put self.new.rope self.new.lines
            change.bytes change.run change.rows) }
        ensures refused { IfErr result (IsReplaceFault self.old.rope start end (clean put.now)) }
        ensures unchanged { OnErr result (self.new ≡ self.old) }
        ensures counted { steps.old ≤ steps.new }
    {
        let (text, change) = self.replaced(alloc, start, end, put, steps)?;
        *self = text;
        Ok(change)
    }

    /// Where each line of a run is cut at the width.
    pub fn cuts(&self, alloc: Global, run: Run) -> Result<Vec<Cuts>, NoMemory>
        requires { run.first + run.count ≤ length (lines_of self.now.lines) }
        ensures { let cuts = cuts_of_run (lines_of self.now.lines) run self.now.lines.width in
            IfOk result (λ wraps. map (λ cuts. cuts.items) wraps.items ≡ cuts) }
    {
        // For the proof: a text is within its limit.
        let _bytes = self.rope.len();
        wraps(alloc, self.lines.lines(), run, self.lines.width())
    }

    /// Wraps the first lines that wait. It gives the run of them, or `None` where no line waits.
    pub fn wrap_next(&mut self, alloc: Global, steps: &mut Steps) -> Result<Option<Run>, NoMemory>
        ensures next { let lines = self.old.lines in
            IfOk result (λ run. IsNextIfAny lines.marks lines.width [] run) }
        ensures wrapped { IfOk result (λ run. self.new.lines ≡ wrapped_at self.old.lines run) }
        ensures text { self.new.rope ≡ self.old.rope }
        ensures unchanged { OnErr result (self.new ≡ self.old) }
        ensures counted { steps.old ≤ steps.new }
    {
        // For the proof: a text is within its limit.
        let _bytes = self.rope.len();
        let Some(out) = OutRun::taken(alloc, &self.lines, steps)? else {
            return Ok(None);
        };
        let Some(landed) = out.land(alloc, &self.lines, steps)? else {
            unreachable!();
        };
        self.lines = landed.lines;
        Ok(Some(out.run()))
    }

    /// An equal text, which no later change reaches.
    pub fn share(&self) -> Result<StagedText, NoMemory>
        ensures text { IfOk result (λ shared. shared.rope ≡ self.now.rope) }
        ensures lines { IfOk result (λ shared. shared.lines ≡ self.now.lines) }
    {
        Ok(StagedText {
            rope: self.rope.share()?,
            lines: self.lines.share()?,
        })
    }
}
