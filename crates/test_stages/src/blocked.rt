//! A text with blocks between its rows.
ghost use Rattle.std.specs.Prelude.{◌≡◌, ◌≢◌, ◌≤◌, [], None, Some, map, IfErr, IfOk, IfSome, OnErr, OnOk};
ghost use Rattle.std.proofs.Props.{props};
ghost use Rattle.block_map.specs.Maps.{IsOwed, add_refusal, remove_refusal, removed, state_of, synced};
ghost use Rattle.blocked_rows.specs.Standing.{ArePlaced, with_block};
ghost use Rattle.cell_line.specs.Waiting.{IsNextIfAny};
ghost use Rattle.cell_units.specs.Lawful.{IsWidth};
ghost use Rattle.cell_units.specs.Layers.{plain_source};
ghost use Rattle.cell_units.specs.Text.{clean};
ghost use Rattle.text_rope.specs.Edits.{IsReplaceFault};
ghost use Rattle.wrapped_lines.specs.Changed.{IsLandedAt, IsNumberFault};
ghost use Rattle.wrapped_lines.specs.Places.{marks_at};
ghost use Rattle.wrapped_lines.specs.WrappedSource.{row_texts, unwrapped};
ghost use Rattle.test_stages.specs.Places.{carried, taken_from};
ghost use Rattle.test_stages.specs.Staged.{IsReplaced};

use crate::late::LateText;
use crate::text::{Change, Shown, StagedText};
use blocked_rows::BlockedRows;
use cell_line::Run;
use cell_units::{Fault, NoMemory, Rows, Side, Steps, Text};
use edit_patch::Patch;
use std::alloc::Global;
use text_rope::Rope;
use wrapped_lines::Landed;

/// A text of which a run of lines may be out, and blocks between its rows, all of them shown.
pub struct BlockedText {
    pub late: LateText,
    pub blocks: BlockedRows<Shown>,
    ghost placed: { ArePlaced (plain_source late.text.rope) blocks } by { Prim.hlevel props },
    ghost rows: { blocks.lines ≡ row_texts late.text.lines },
}

impl Drop for BlockedText {
    fn drop(self) {
        let BlockedText { late: _, blocks: _ } = self;
    }
}

impl BlockedText {
    /// The text without blocks, of which each line has one row and is to be wrapped at 80 cells.
    pub fn new(alloc: Global, rope: Rope, steps: &mut Steps) -> Result<BlockedText, NoMemory>
        ensures text { IfOk result (λ made. made.late.text.rope ≡ rope) }
        ensures lines { let lines = unwrapped (plain_source rope) in
            IfOk result (λ made. made.late.text.lines ≡ lines) }
        ensures blocks { let rows = row_texts (unwrapped (plain_source rope)) in
            IfOk result (λ made. made.blocks ≡ state_of rows) }
        ensures counted { steps.old ≤ steps.new }
    {
        let text = StagedText::new(alloc, rope, steps)?;
        let late = LateText::new(alloc, text)?;
        BlockedText::over(alloc, late, steps)
    }

    /// A text without blocks.
    pub fn over(alloc: Global, late: LateText, steps: &mut Steps) -> Result<BlockedText, NoMemory>
        ensures late { IfOk result (λ made. made.late ≡ late) }
        ensures blocks { IfOk result (λ made. made.blocks ≡ state_of (row_texts late.text.lines)) }
        ensures counted { steps.old ≤ steps.new }
    {
        // For the proof: a text is within its limit.
        let _bytes = late.text.rope.len();
        let rows = Rows::share(late.text.lines.rows())?;
        let blocks = BlockedRows::new(alloc, &late.text.rope, rows, steps)?;
        Ok(BlockedText { late, blocks })
    }

    /// Adds a block. It is refused as the blocks refuse it.
    pub fn insert(
        &mut self,
        alloc: Global,
        id: u32,
        side: Side,
        offset: u32,
        lines: &[Text],
        steps: &mut Steps,
    ) -> Result<(), Fault>
        // What is there after it.
        ensures made { let source = plain_source self.old.late.text.rope in
            let blocks = with_block source side id offset lines.now self.old.blocks in
            OnOk result (self.new.blocks ≡ blocks) }

        // When it is refused.
        ensures accepted { let source = plain_source self.old.late.text.rope in
            OnOk result (add_refusal source self.old.blocks id offset lines.now ≡ None) }
        ensures refused { let source = plain_source self.old.late.text.rope in
            IfErr result (IsOwed (add_refusal source self.old.blocks id offset lines.now)) }

        // What stays, and the work.
        ensures late { self.new.late ≡ self.old.late }
        ensures unchanged { OnErr result (self.new ≡ self.old) }
        ensures counted { steps.old ≤ steps.new }
    {
        let late = &self.late;
        // For the proof: its bytes are a text.
        let _bytes = late.text.rope.len();
        let blocks = self
            .blocks
            .with_block(alloc, &late.text.rope, id, side, offset, lines, steps)?;
        self.blocks = blocks;
        Ok(())
    }

    /// Takes the block of an id out. `UnknownId` where there is none.
    pub fn remove(&mut self, alloc: Global, id: u32, steps: &mut Steps) -> Result<(), Fault>
        // What is there after it.
        ensures made { OnOk result (self.new.blocks ≡ removed id self.old.blocks) }

        // When it is refused.
        ensures accepted { OnOk result (remove_refusal self.old.blocks id ≡ None) }
        ensures refused { IfErr result (IsOwed (remove_refusal self.old.blocks id)) }

        // What stays, and the work.
        ensures late { self.new.late ≡ self.old.late }
        ensures unchanged { OnErr result (self.new ≡ self.old) }
        ensures counted { steps.old ≤ steps.new }
    {
        let late = &self.late;
        let blocks = self
            .blocks
            .without_block(alloc, &late.text.rope, id, steps)?;
        self.blocks = blocks;
        Ok(())
    }

    /// Shows the blocks once more, over a text that is as it was.
    pub fn show(&mut self, alloc: Global, steps: &mut Steps) -> Result<(), NoMemory>
        ensures made { let source = plain_source self.old.late.text.rope in
            let blocks = synced source None (row_texts self.old.late.text.lines) self.old.blocks in
            OnOk result (self.new.blocks ≡ blocks) }
        ensures late { self.new.late ≡ self.old.late }
        ensures unchanged { OnErr result (self.new ≡ self.old) }
        ensures counted { steps.old ≤ steps.new }
    {
        let late = &self.late;
        // For the proof: its bytes are a text.
        let _bytes = late.text.rope.len();
        let rows = Rows::share(late.text.lines.rows())?;
        let none = Patch::none(alloc);
        let blocks = self
            .blocks
            .after(alloc, &late.text.rope, None, rows, &none, steps)?;
        self.blocks = blocks;
        Ok(())
    }

    /// Puts a text in the place of a range, and gives what was replaced. It is refused as the rope refuses it.
    pub fn replace(
        &mut self,
        alloc: Global,
        start: u32,
        end: u32,
        put: &str,
        steps: &mut Steps,
    ) -> Result<Change, Fault>
        // The text with its lines after it, where the lines of the run are then, and the blocks.
        ensures replaced { let put = clean put.now in
            let old = self.old.late.text in let new = self.new.late.text in IfOk result (λ change.
            IsReplaced old.rope old.lines start end put new.rope new.lines
            change.bytes change.run change.rows) }
        ensures moved { let out = self.old.late.out in IfOk result (λ change.
            self.new.late.out ≡ record out { places = map (carried change.run) out.places }) }
        ensures blocks { let text = self.new.late.text in let rows = row_texts text.lines in
            let source = plain_source text.rope in IfOk result (λ change.
            self.new.blocks ≡ synced source (Some change.bytes) rows self.old.blocks) }

        // A refusal is that of the rope, and changes nothing.
        ensures refused { let text = self.old.late.text.rope in
            IfErr result (IsReplaceFault text start end (clean put.now)) }
        ensures unchanged { OnErr result (self.new ≡ self.old) }
        ensures counted { steps.old ≤ steps.new }
    {
        let late = &self.late;
        // For the proof: its bytes are a text.
        let _bytes = late.text.rope.len();
        let (text, change) = late.text.replaced(alloc, start, end, put, steps)?;
        // So are those of the new one.
        let _after = text.rope.len();
        let rows = Rows::share(text.lines.rows())?;
        let bytes = Some(change.bytes);
        let blocks = self
            .blocks
            .after(alloc, &text.rope, bytes, rows, &change.rows, steps)?;
        self.late.follow(text, change.run);
        self.blocks = blocks;
        Ok(change)
    }

    /// Sets the width at which the lines are to be wrapped, in cells. `BadNumber` where it is neither 0 nor 2 to
    /// 10,000.
    pub fn set_width(&mut self, width: u32) -> Result<(), Fault>
        // A lawful width is set.
        ensures set { let lines = self.old.late.text.lines in
            OnOk result (self.new.late.text.lines ≡ record lines { width = width }) }
        ensures accepted { OnOk result (IsWidth width) }
        ensures refused { IfErr result (IsNumberFault (IsWidth width)) }

        // What stays.
        ensures text { self.new.late.text.rope ≡ self.old.late.text.rope }
        ensures out { self.new.late.out ≡ self.old.late.out }
        ensures blocks { self.new.blocks ≡ self.old.blocks }
        ensures unchanged { OnErr result (self.new ≡ self.old) }
    {
        self.late.set_width(width)
    }

    /// Takes the first lines that wait, and cuts them at the width. It gives the run of them, or `None` where no line
    /// waits.
    pub fn take(&mut self, alloc: Global, steps: &mut Steps) -> Result<Option<Run>, NoMemory>
        // The run, which is out then. Where no line waits the one before stays out.
        ensures next { let lines = self.old.late.text.lines in
            IfOk result (λ run. IsNextIfAny lines.marks lines.width [] run) }
        ensures taken { let lines = self.old.late.text.lines in
            IfOk result (λ run. IfSome run (λ run. self.new.late.out ≡ taken_from lines run)) }

        // What stays, and the work.
        ensures text { self.new.late.text ≡ self.old.late.text }
        ensures blocks { self.new.blocks ≡ self.old.blocks }
        ensures unchanged { OnErr result (self.new ≡ self.old) }
        ensures counted { steps.old ≤ steps.new }
    {
        self.late.take(alloc, steps)
    }

    /// Gives the lines of the run that are still there their cuts. Where the width isn't the one at which they were
    /// cut, no line is.
    pub fn land(&mut self, alloc: Global, steps: &mut Steps) -> Result<(), NoMemory>
        // The lines after it.
        ensures landed { let old = self.old.late in
            let marks = marks_at old.out.places old.text.lines.width old.text.lines.marks in
            old.out.width ≡ old.text.lines.width →
            OnOk result (self.new.late.text.lines ≡ record old.text.lines { marks = marks }) }
        ensures other_width { self.old.late.out.width ≢ self.old.late.text.lines.width →
            self.new.late ≡ self.old.late }

        // The blocks.
        ensures blocks { let text = self.new.late.text in
            let rows = row_texts text.lines in let source = plain_source text.rope in
            OnOk result (self.new.blocks ≡ synced source None rows self.old.blocks) }

        // What stays, and the work.
        ensures text { self.new.late.text.rope ≡ self.old.late.text.rope }
        ensures out { self.new.late.out ≡ self.old.late.out }
        ensures unchanged { OnErr result (self.new ≡ self.old) }
        ensures counted { steps.old ≤ steps.new }
    {
        let late = &self.late;
        match late.out.land(alloc, &late.text.lines, steps)? {
            Some(landed) => self.relaid(alloc, landed, steps),
            None => self.show(alloc, steps),
        }
    }

    /// Goes on to lines of which some landed.
    fn relaid(
        &mut self,
        alloc: Global,
        landed: Landed<Rope>,
        steps: &mut Steps,
    ) -> Result<(), NoMemory>
        requires { let late = self.old.late in
            IsLandedAt late.text.lines late.out.places landed.lines landed.rows }
        ensures lines { OnOk result (self.new.late.text.lines ≡ landed.lines) }
        ensures blocks { let source = plain_source self.old.late.text.rope in
            let blocks = synced source None (row_texts landed.lines) self.old.blocks in
            OnOk result (self.new.blocks ≡ blocks) }
        ensures text { self.new.late.text.rope ≡ self.old.late.text.rope }
        ensures out { self.new.late.out ≡ self.old.late.out }
        ensures unchanged { OnErr result (self.new ≡ self.old) }
        ensures counted { steps.old ≤ steps.new }
    {
        let late = &self.late;
        // For the proof: its bytes are a text.
        let _bytes = late.text.rope.len();
        let rows = Rows::share(landed.lines.rows())?;
        let blocks = self
            .blocks
            .after(alloc, &late.text.rope, None, rows, &landed.rows, steps)?;
        self.go_on(landed, blocks);
        Ok(())
    }

    /// Goes on to lines of which some landed, and to the blocks between their rows.
    fn go_on(&mut self, landed: Landed<Rope>, blocks: BlockedRows<Shown>)
        requires landed { let late = self.old.late in
            IsLandedAt late.text.lines late.out.places landed.lines landed.rows }
        requires placed { ArePlaced (plain_source self.old.late.text.rope) blocks }
        requires rows { blocks.lines ≡ row_texts landed.lines }
        ensures lines { self.new.late.text.lines ≡ landed.lines }
        ensures blocks { self.new.blocks ≡ blocks }
        ensures text { self.new.late.text.rope ≡ self.old.late.text.rope }
        ensures out { self.new.late.out ≡ self.old.late.out }
    {
        self.late.text.lines = landed.lines;
        self.blocks = blocks;
    }

    /// An equal text, of which no run is out.
    pub fn share(&self, alloc: Global) -> Result<BlockedText, NoMemory>
        ensures text { let rope = self.now.late.text.rope in
            IfOk result (λ shared. shared.late.text.rope ≡ rope) }
        ensures lines { let lines = self.now.late.text.lines in
            IfOk result (λ shared. shared.late.text.lines ≡ lines) }
        ensures blocks { IfOk result (λ shared. shared.blocks ≡ self.now.blocks) }
    {
        let blocks = self.blocks.share()?;
        let late = LateText::new(alloc, self.late.text.share()?)?;
        Ok(BlockedText { late, blocks })
    }
}
