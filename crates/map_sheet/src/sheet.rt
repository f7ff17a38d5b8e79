//! The sheet, and the parts of the record that it keeps.
ghost use Rattle.std.specs.Prelude.{◌≡◌, ◌≤◌, length, IfOk};
ghost use Rattle.std.specs.Arc.{arc_value};
ghost use Rattle.cell_units.specs.declared.limits.TheConstants.{LAID_LIMIT};
ghost use Rattle.cell_units.specs.Lawful.{IsLawful, source_of};
ghost use Rattle.cell_units.specs.Record.{Record};
ghost use Rattle.plain_rows.specs.Rows.{rows_of};
ghost use Rattle.display_sheet.specs.Shown.{unstamped};
ghost use Rattle.block_map.specs.Between.{rows_between};
ghost use Rattle.blocked_rows.specs.Records.{kept_blocks, row_texts, shown_of};
ghost use Rattle.map_sheet.specs.Kept.{KeepSome, Keeps, lines_in};

use block_map::BlockSnapshot;
use blocked_rows::{BlockedRows, blocked_laws};
use cell_units::NoMemory;
use fold_map::FoldSnapshot;
use inlay_map::InlaySnapshot;
use layered_text::LayeredText;
use std::alloc::Global;
use std::marker::Model;
use std::sync::Arc;
use tab_map::TabSnapshot;
use wrap_map::WrapSnapshot;
use wrapped_lines::WrappedLines;

/// A text with its inlays and folds, as it is shown.
pub type Layered = FoldSnapshot<InlaySnapshot>;

/// The display lines of one moment, as a job holds them.
pub type Held = TabSnapshot<Layered>;

/// The rows of display lines, with blocks between them.
pub type Blocked = BlockedRows<WrapSnapshot<Held>>;

/// The record of a display over the five maps. It is seen as the record, in which the stamps count the lines.
pub struct MapSheet {
    text: Arc<LayeredText, Global>,
    lines: Arc<WrappedLines<Layered>, Global>,
    blocks: Arc<Blocked, Global>,
}

impl Drop for MapSheet {
    fn drop(self) {
        let MapSheet {
            text: _,
            lines: _,
            blocks: _,
        } = self;
    }
}

impl Model for MapSheet {
    ghost use Rattle.std.specs.Arc.{arc_value};
    ghost use Rattle.cell_units.specs.Record.{Record};
    ghost use Rattle.map_sheet.specs.Kept.{Keeps, record_in};

    ghost Value = { Record };

    ghost view = { λ s. record_in (arc_value s.text) (arc_value s.lines) (arc_value s.blocks) };

    ghost invariant = { λ s.
        Keeps (record_in (arc_value s.text) (arc_value s.lines) (arc_value s.blocks))
        (arc_value s.text) (arc_value s.lines) (arc_value s.blocks) };
}

/// A share of a part.
fn share_of<T>(part: &Arc<T, Global>) -> Result<Arc<T, Global>, NoMemory>
    ensures { IfOk result (λ share. arc_value share ≡ arc_value part.now) }
{
    Ok(Arc::try_clone(part)?)
}

impl MapSheet {
    /// The sheet of the record of which these are the parts.
    pub(crate) fn assembled(
        alloc: Global,
        text: Arc<LayeredText, Global>,
        lines: WrappedLines<Layered>,
        blocks: Blocked,
    ) -> Result<MapSheet, NoMemory>
        requires { KeepSome (arc_value text) lines blocks }
        ensures { (r : Record) → Keeps r (arc_value text) lines blocks →
            IfOk result (λ sheet. sheet ≡ r) }
    {
        let lines = Arc::new(alloc, lines)?;
        MapSheet::with_lines(alloc, text, lines, blocks)
    }

    /// The same, where the lines are shared already.
    pub(crate) fn with_lines(
        alloc: Global,
        text: Arc<LayeredText, Global>,
        lines: Arc<WrappedLines<Layered>, Global>,
        blocks: Blocked,
    ) -> Result<MapSheet, NoMemory>
        requires { KeepSome (arc_value text) (arc_value lines) blocks }
        ensures { (r : Record) → Keeps r (arc_value text) (arc_value lines) blocks →
            IfOk result (λ sheet. sheet ≡ r) }
    {
        let blocks = Arc::new(alloc, blocks)?;
        Ok(MapSheet {
            text,
            lines,
            blocks,
        })
    }

    /// The same record with other lines, whose rows and blocks are as they were.
    pub(crate) fn relined(
        &self,
        alloc: Global,
        lines: WrappedLines<Layered>,
    ) -> Result<MapSheet, NoMemory>
        requires { KeepSome (source_of self.now) lines
            (kept_blocks self.now (row_texts self.now)) }
        ensures { (r : Record) →
            Keeps r (source_of self.now) lines (kept_blocks self.now (row_texts self.now)) →
            IfOk result (λ sheet. sheet ≡ r) }
    {
        let text = self.text_share()?;
        let blocks = share_of(&self.blocks)?;
        let lines = Arc::new(alloc, lines)?;
        Ok(MapSheet {
            text,
            lines,
            blocks,
        })
    }

    /// An equal sheet, which no later change reaches.
    pub(crate) fn shared(&self) -> Result<MapSheet, NoMemory>
        ensures { IfOk result (λ sheet. sheet ≡ self.now) }
    {
        let text = share_of(&self.text)?;
        let lines = share_of(&self.lines)?;
        let blocks = share_of(&self.blocks)?;
        Ok(MapSheet {
            text,
            lines,
            blocks,
        })
    }

    /// The record is lawful, its text at most twice as long as a text may be, and its stamps count its lines. It does nothing.
    pub fn lawful(&self)
        ensures lawful { IsLawful self.now }
        ensures short { length self.now.text ≤ LAID_LIMIT }
        ensures plain { unstamped self.now ≡ self.now }
    {
        let _ = &self.text;
    }

    /// The text with its inlays and folds.
    pub fn text(&self) -> &LayeredText
        ensures { result.now ≡ source_of self.now }
    {
        &self.text
    }

    /// A share of it.
    pub(crate) fn text_share(&self) -> Result<Arc<LayeredText, Global>, NoMemory>
        ensures { IfOk result (λ text. arc_value text ≡ source_of self.now) }
    {
        share_of(&self.text)
    }

    /// The lines as they are wrapped.
    pub fn wrapped(&self) -> &WrappedLines<Layered>
        ensures { result.now ≡ lines_in self.now }
    {
        &self.lines
    }

    /// A share of them.
    pub(crate) fn lines_share(&self) -> Result<Arc<WrappedLines<Layered>, Global>, NoMemory>
        ensures { IfOk result (λ lines. arc_value lines ≡ lines_in self.now) }
    {
        share_of(&self.lines)
    }

    /// The blocks between the rows of the lines.
    pub fn blocked(&self) -> &Blocked
        ensures { result.now ≡ kept_blocks self.now (row_texts self.now) }
    {
        &self.blocks
    }

    /// All that is shown.
    pub fn shown(&self) -> &BlockSnapshot<WrapSnapshot<Held>>
        ensures shown { result.now ≡ shown_of self.now }
        ensures rows { rows_between result.now ≡ rows_of self.now }
    {
        // For the proof: the blocks at their lines show the rows of the record, and the record is lawful.
        blocked_laws();
        self.lawful();
        self.blocked().shown()
    }
}
