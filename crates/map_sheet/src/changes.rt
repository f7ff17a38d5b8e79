//! What an operation makes of a sheet.
ghost use Rattle.std.specs.Prelude.{◌≡◌, ◌+◌, ◌<◌, ◌≤◌, false, length, IfOk};
ghost use Rattle.std.specs.Arc.{arc_value};
ghost use Rattle.std.specs.List.{All};
ghost use Rattle.std.specs.Str.{IsUtf8};
ghost use Rattle.cell_units.specs.BufferLines.{line_start};
ghost use Rattle.cell_units.specs.declared.limits.TheConstants.{LAID_LIMIT};
ghost use Rattle.cell_units.specs.Lawful.{IsAllowed, source_of};
ghost use Rattle.cell_units.specs.Operation.{AddBlock, AddFold, AddInlay, Operation, RemoveBlock, RemoveFold, RemoveInlay, SetTab, SetWidth, operated};
ghost use Rattle.cell_units.specs.Record.{line_count};
ghost use Rattle.display_sheet.specs.Changes.{fold_of, inlay_of, is_replacement, operation_of, replacement};
ghost use Rattle.display_sheet.specs.Sheets.{IsOperated};
ghost use Rattle.plain_rows.specs.Reach.{WorksAtMost};
ghost use Rattle.kept_sheet.specs.Bounds.{ReplacesAtMost};
ghost use Rattle.map_sheet.specs.Bounds.{RelaysAtMost, ShowsAtMost, touched_blocks};
ghost use Rattle.map_sheet.specs.Changes.{IsMade, IsReblocked, IsRelaid, IsTurned, WasReblocked, WasRelaid, WasTurned};

use crate::sheet::{Blocked, Layered, MapSheet};
use blocked_rows::{blocked_laws, followed_laws};
use cell_units::{Bias, Fault, Layer, NoMemory, Rows, Shift, Side, Steps, Text};
use display_sheet::{LineSplice, Op, Splice};
use layered_text::{LayeredText, Refolded};
use std::alloc::Global;
use std::sync::Arc;
use wrapped_lines::Rewrapped;

/// The lines of a run make place for so many others.
fn spliced(run: Shift) -> LineSplice
    ensures first { result.first ≡ run.start }
    ensures end { result.end ≡ run.end }
    ensures count { result.count ≡ run.count }
{
    LineSplice {
        first: run.start,
        end: run.end,
        count: run.count,
    }
}

/// The lines are UTF-8. It does nothing.
fn are_texts(lines: &[Text])
    ensures { All IsUtf8 lines.now }
{
    for line in lines {
        let _text = line.as_str();
    }
}

/// No line makes place for others.
const NO_LINE: LineSplice = LineSplice {
    first: 0,
    end: 0,
    count: 0,
};

impl MapSheet {
    /// The sheet after a change of what is shown, and the lines that it splices.
    fn relaid(
        &self,
        alloc: Global,
        turned: Refolded,
        shift: Option<Shift>,
        steps: &mut Steps,
    ) -> Result<(MapSheet, LineSplice), NoMemory>
        requires { WasTurned self.now turned.text turned.shown shift }
        ensures done { (operation : Operation) →
            IsTurned operation self.now turned.text turned.shown shift →
            IfOk result (λ made. IsOperated operation self.now made.0 made.1) }
        ensures counted { steps.old ≤ steps.new }
        ensures steps { (operation : Operation) →
            IsTurned operation self.now turned.text turned.shown shift →
            RelaysAtMost operation self.now steps.old steps.new }
    {
        // For the proof: the record is lawful.
        self.lawful();
        let layer = Layer::share(turned.text.layer())?;
        let made = self.wrapped().after(alloc, layer, turned.shown, steps)?;
        let text = Arc::new(alloc, turned.text)?;
        self.rewrapped(alloc, text, made, shift, steps)
    }

    /// The same after a change of the lines over a text, of which those of a run made place for others.
    fn rewrapped(
        &self,
        alloc: Global,
        text: Arc<LayeredText, Global>,
        made: Rewrapped<Layered>,
        shift: Option<Shift>,
        steps: &mut Steps,
    ) -> Result<(MapSheet, LineSplice), NoMemory>
        requires { WasRelaid self.now (arc_value text) made.lines made.run made.rows shift }
        ensures done { (operation : Operation) →
            IsRelaid operation self.now (arc_value text) made.lines made.run made.rows shift →
            IfOk result (λ new. IsOperated operation self.now new.0 new.1) }
        ensures counted { steps.old ≤ steps.new }
        ensures steps { (operation : Operation) →
            IsRelaid operation self.now (arc_value text) made.lines made.run made.rows shift →
            ShowsAtMost (touched_blocks operation self.now) 1 self.now steps.old steps.new }
    {
        // For the proof: the record is lawful, the blocks at their lines show the rows of the record, and the
        // blocks may be given this change.
        self.lawful();
        blocked_laws();
        followed_laws();
        let rows = Rows::share(made.lines.rows())?;
        let blocks = self
            .blocked()
            .after(alloc, text.layer(), shift, rows, &made.rows, steps)?;
        let splice = spliced(made.run);
        let sheet = MapSheet::assembled(alloc, text, made.lines, blocks)?;
        Ok((sheet, splice))
    }

    /// The sheet after a replacement of the text, which its caller has judged.
    pub(crate) fn with_splice(
        &self,
        alloc: Global,
        splice: &Splice,
        steps: &mut Steps,
    ) -> Result<(MapSheet, LineSplice), NoMemory>
        requires allowed { IsAllowed (replacement splice.now) self.now }
        requires fits { length (operated (replacement splice.now) self.now).text ≤ LAID_LIMIT }
        ensures done { IfOk result (λ made.
            IsOperated (replacement splice.now) self.now made.0 made.1) }
        ensures counted { steps.old ≤ steps.new }
        ensures steps { ReplacesAtMost (replacement splice.now) self.now steps.old steps.new }
    {
        let text = splice.text.as_str();
        let made = self
            .text()
            .replaced(alloc, splice.start, splice.end, text, steps)?;
        self.relaid(alloc, made.0, Some(made.1), steps)
    }

    /// The sheet after an operation that isn't a replacement.
    pub(crate) fn done(
        &self,
        alloc: Global,
        op: &Op,
        steps: &mut Steps,
    ) -> Result<(MapSheet, LineSplice), Fault>
        requires { is_replacement op.now ≡ false }
        ensures made { IsMade (operation_of op.now) self.now result }
        ensures counted { steps.old ≤ steps.new }
        ensures steps { WorksAtMost (operation_of op.now) self.now steps.old steps.new }
    {
        match op {
            Op::Replace(_) => unreachable!(),
            Op::Inlay {
                id,
                offset,
                bias,
                text,
            } => self.with_inlay(alloc, *id, *offset, *bias, text.as_str(), steps),
            Op::Uninlay { id } => self.without_inlay(alloc, *id, steps),
            Op::Fold { id, start, end } => self.with_fold(alloc, *id, *start, *end, steps),
            Op::Unfold { id } => self.without_fold(alloc, *id, steps),
            Op::Block {
                id,
                side,
                row,
                lines,
            } => self.with_block(alloc, *id, *side, *row, lines.as_slice(), steps),
            Op::Unblock { id } => self.without_block(alloc, *id, steps),
            Op::Tab { size } => self.with_tab(alloc, *size, steps),
            Op::Width { cells } => self.with_width(alloc, *cells),
        }
    }

    fn with_inlay(
        &self,
        alloc: Global,
        id: u32,
        offset: u32,
        bias: Bias,
        text: &str,
        steps: &mut Steps,
    ) -> Result<(MapSheet, LineSplice), Fault>
        ensures made { IsMade (AddInlay (inlay_of id offset bias text.now)) self.now result }
        ensures counted { steps.old ≤ steps.new }
        ensures steps { let operation = AddInlay (inlay_of id offset bias text.now) in
            WorksAtMost operation self.now steps.old steps.new }
    {
        // For the proof: the record is lawful.
        self.lawful();
        let made = self
            .text()
            .with_inlay(alloc, id, offset, bias, text, steps)?;
        Ok(self.relaid(alloc, made, None, steps)?)
    }

    fn without_inlay(
        &self,
        alloc: Global,
        id: u32,
        steps: &mut Steps,
    ) -> Result<(MapSheet, LineSplice), Fault>
        ensures made { IsMade (RemoveInlay id) self.now result }
        ensures counted { steps.old ≤ steps.new }
        ensures steps { WorksAtMost (RemoveInlay id) self.now steps.old steps.new }
    {
        // For the proof: the record is lawful.
        self.lawful();
        let made = self.text().without_inlay(alloc, id, steps)?;
        Ok(self.relaid(alloc, made, None, steps)?)
    }

    fn with_fold(
        &self,
        alloc: Global,
        id: u32,
        start: u32,
        end: u32,
        steps: &mut Steps,
    ) -> Result<(MapSheet, LineSplice), Fault>
        ensures made { IsMade (AddFold (fold_of id start end)) self.now result }
        ensures counted { steps.old ≤ steps.new }
        ensures steps { WorksAtMost (AddFold (fold_of id start end)) self.now steps.old steps.new }
    {
        // For the proof: the record is lawful.
        self.lawful();
        let made = self.text().with_fold(alloc, id, start, end, steps)?;
        Ok(self.relaid(alloc, made, None, steps)?)
    }

    fn without_fold(
        &self,
        alloc: Global,
        id: u32,
        steps: &mut Steps,
    ) -> Result<(MapSheet, LineSplice), Fault>
        ensures made { IsMade (RemoveFold id) self.now result }
        ensures counted { steps.old ≤ steps.new }
        ensures steps { WorksAtMost (RemoveFold id) self.now steps.old steps.new }
    {
        // For the proof: the record is lawful.
        self.lawful();
        let made = self.text().without_fold(alloc, id, steps)?;
        Ok(self.relaid(alloc, made, None, steps)?)
    }

    fn with_tab(
        &self,
        alloc: Global,
        size: u32,
        steps: &mut Steps,
    ) -> Result<(MapSheet, LineSplice), Fault>
        ensures made { IsMade (SetTab size) self.now result }
        ensures counted { steps.old ≤ steps.new }
        ensures steps { WorksAtMost (SetTab size) self.now steps.old steps.new }
    {
        // For the proof: the record is lawful.
        self.lawful();
        let made = self.wrapped().with_tab(alloc, size, steps)?;
        let text = self.text_share()?;
        Ok(self.rewrapped(alloc, text, made, None, steps)?)
    }

    /// The lines are to be wrapped at another width; none is cut anew by that alone.
    fn with_width(&self, alloc: Global, cells: u32) -> Result<(MapSheet, LineSplice), Fault>
        ensures { IsMade (SetWidth cells) self.now result }
    {
        // For the proof: the record is lawful.
        self.lawful();
        let lines = self.wrapped().with_width(cells)?;
        let sheet = self.relined(alloc, lines)?;
        Ok((sheet, NO_LINE))
    }

    /// The offset at which a row begins; past the last row one past the text's end, which is no boundary.
    fn row_start(&self, row: u32) -> u32
        ensures start { row < line_count self.now.text → result ≡ line_start self.now.text row }
        ensures past { line_count self.now.text ≤ row → result ≡ length self.now.text + 1 }
    {
        let source = self.text();
        let rope = source.rope();
        let rows = rope.line_count();
        let end = rope.len();
        if row >= rows {
            return end + 1;
        }
        source.layer().row_range(row).0
    }

    fn with_block(
        &self,
        alloc: Global,
        id: u32,
        side: Side,
        row: u32,
        lines: &[Text],
        steps: &mut Steps,
    ) -> Result<(MapSheet, LineSplice), Fault>
        ensures made { IsMade (AddBlock row id side lines.now) self.now result }
        ensures counted { steps.old ≤ steps.new }
        ensures steps { WorksAtMost (AddBlock row id side lines.now) self.now steps.old steps.new }
    {
        // For the proof: the record is lawful, and the blocks at their lines show the rows of the record.
        self.lawful();
        blocked_laws();
        are_texts(lines);
        let offset = self.row_start(row);
        let blocks = self
            .blocked()
            .with_block(alloc, self.text().layer(), id, side, offset, lines, steps)?;
        Ok(self.reblocked(alloc, blocks)?)
    }

    fn without_block(
        &self,
        alloc: Global,
        id: u32,
        steps: &mut Steps,
    ) -> Result<(MapSheet, LineSplice), Fault>
        ensures made { IsMade (RemoveBlock id) self.now result }
        ensures counted { steps.old ≤ steps.new }
        ensures steps { WorksAtMost (RemoveBlock id) self.now steps.old steps.new }
    {
        // For the proof: the record is lawful, and the blocks at their lines show the rows of the record.
        self.lawful();
        blocked_laws();
        let blocks = self
            .blocked()
            .without_block(alloc, self.text().layer(), id, steps)?;
        Ok(self.reblocked(alloc, blocks)?)
    }

    /// The same text and lines with other blocks.
    fn reblocked(&self, alloc: Global, blocks: Blocked) -> Result<(MapSheet, LineSplice), NoMemory>
        requires { WasReblocked self.now blocks }
        ensures { (operation : Operation) → IsReblocked operation self.now blocks →
            IfOk result (λ made. IsOperated operation self.now made.0 made.1) }
    {
        // For the proof: the record is lawful.
        self.lawful();
        let lines = self.lines_share()?;
        let text = self.text_share()?;
        let sheet = MapSheet::with_lines(alloc, text, lines, blocks)?;
        Ok((sheet, NO_LINE))
    }
}
