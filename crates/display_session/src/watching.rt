//! The rows that changed, in a session.
ghost use Rattle.std.specs.Prelude.{◌≡◌, Some, length, IfOk, IfSome, OnErr, OnOk};
ghost use Rattle.display_map.specs.Replay.{present_of};
ghost use Rattle.row_pieces.specs.Changed.{IsTrue, looks};
ghost use Rattle.display_session.specs.Watches.{asked_at, changed_rows, earlier};

use crate::session::Session;
use cell_units::NoMemory;
use view_changes::RowChange;

impl Session {
    /// The rows that changed since they were last asked for, or at first all as new ones.
    fn rows_since(&self) -> Result<RowChange, NoMemory>
        ensures { IfOk result (λ rows.
            rows ≡ changed_rows self.now.display (asked_at self.now.watch)) }
    {
        match self.watch {
            Some(watch) => Ok(watch.replaced),
            None => Ok(RowChange {
                from: 0,
                to: 0,
                count: self.row_count()?,
            }),
        }
    }

    /// The rows that changed since this was last asked, by changes and by wrapping (*Changed rows*): what covers in turn
    /// those that each replaced. `from` and `to` count the rows of then, and `count` rows of now. At first no row makes
    /// place for all.
    ///
    /// Where it is out of memory nothing changes, so that it may be asked again.
    pub fn changed_rows(&mut self) -> Result<RowChange, NoMemory>
        // The rows, and that no row outside of them looks another.
        ensures rows { IfOk result (λ rows.
            rows ≡ changed_rows self.old.display (asked_at self.old.watch)) }
        ensures others { IfOk result (λ rows. IfSome (asked_at self.old.watch) (λ events.
            let before = present_of (earlier self.old.display events) in
            IsTrue rows (looks before) (looks (present_of self.old.display)))) }

        // It was asked now.
        ensures asked { OnOk result
            (asked_at self.new.watch ≡ Some (length self.old.display.events)) }

        // What stays.
        ensures display { self.new.display ≡ self.old.display }
        ensures kept { self.new.answer ≡ self.old.answer }
        ensures marks { self.new.marks ≡ self.old.marks }
        ensures unchanged { OnErr result (self.new ≡ self.old) }
    {
        // For the proof: what is replaced is replaced truly.
        self.display.lawful();
        let rows = self.rows_since()?;
        self.watch = Some(self.display.watched()?);
        Ok(rows)
    }
}
