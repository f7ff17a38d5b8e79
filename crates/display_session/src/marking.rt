//! Marks of the host's own, in a session.
ghost use Rattle.std.specs.Prelude.{◌≡◌, None, filter, IfErr, OnErr, OnOk};
ghost use Rattle.cell_units.specs.Sorting.{insert_by};
ghost use Rattle.mark_tree.specs.Marks.{lacks_id, mark_le, mark_with};
ghost use Rattle.display_map.specs.Replay.{present_of};
ghost use Rattle.display_session.specs.HostMarks.{mark_refusal, offset_of, unmark_refusal};
ghost use Rattle.display_session.specs.Troubles.{IsOwed};
ghost use Rattle.display_session.specs.Watches.{asked_at};

use crate::session::Session;
use crate::trouble::Trouble;
use cell_units::limits::ENTRY_LIMIT;
use cell_units::{Bias, Refusal, Steps};
use mark_tree::Mark;
use std::alloc::Global;
use sum_core::NoLoad;

impl Session {
    /// Why a mark of this id isn't added at this offset, if it isn't.
    fn judge_mark(&self, alloc: Global, id: u32, offset: u32) -> Result<(), Trouble>
        ensures accepted { OnOk result (mark_refusal
            (present_of self.now.display).text self.now.marks id offset ≡ None) }
        ensures refused { IfErr result (IsOwed (mark_refusal
            (present_of self.now.display).text self.now.marks id offset)) }
    {
        let mut steps = Steps::new();
        if self.marks.contains(id, &mut steps) {
            return Err(Trouble::Refused(Refusal::IdInUse));
        }
        self.show(alloc, offset, Bias::Left)?;
        if self.marks.len() as usize >= ENTRY_LIMIT {
            return Err(Trouble::Refused(Refusal::TooLong));
        }
        Ok(())
    }

    /// Adds a mark of the host's own at an offset of the text. What is put in at its offset comes after it (Left) or
    /// before it (Right). `IdInUse`, then `BadRange` where the offset is past the end or within a character, then
    /// `TooLong` where there are 65,536.
    pub fn add_mark(
        &mut self,
        alloc: Global,
        id: u32,
        offset: u32,
        bias: Bias,
    ) -> Result<(), Trouble>
        // When it is added, and which marks are there then.
        ensures accepted { OnOk result (mark_refusal
            (present_of self.old.display).text self.old.marks id offset ≡ None) }
        ensures added { OnOk result (self.new.marks
            ≡ insert_by mark_le (mark_with offset bias id (record {})) self.old.marks) }

        // Why it is refused, and that nothing is changed then.
        ensures refused { IfErr result (IsOwed (mark_refusal
            (present_of self.old.display).text self.old.marks id offset)) }
        ensures unchanged { OnErr result (self.new ≡ self.old) }

        // What stays.
        ensures display { self.new.display ≡ self.old.display }
        ensures kept { self.new.answer ≡ self.old.answer }
        ensures asked { asked_at self.new.watch ≡ asked_at self.old.watch }
    {
        self.judge_mark(alloc, id, offset)?;
        let mark = Mark {
            offset,
            bias,
            id,
            load: NoLoad,
        };
        self.marks.put(alloc, mark, &mut Steps::new())?;
        Ok(())
    }

    /// Takes the mark of this id away. `UnknownId` where there is none.
    pub fn remove_mark(&mut self, alloc: Global, id: u32) -> Result<(), Trouble>
        // When it is removed, and which marks are there then.
        ensures accepted { OnOk result (unmark_refusal self.old.marks id ≡ None) }
        ensures removed { OnOk result (self.new.marks ≡ filter (lacks_id id) self.old.marks) }

        // Why it is refused, and that nothing is changed then.
        ensures refused { IfErr result (IsOwed (unmark_refusal self.old.marks id)) }
        ensures unchanged { OnErr result (self.new ≡ self.old) }

        // What stays.
        ensures display { self.new.display ≡ self.old.display }
        ensures kept { self.new.answer ≡ self.old.answer }
        ensures asked { asked_at self.new.watch ≡ asked_at self.old.watch }
    {
        self.marks.remove(alloc, id, &mut Steps::new())?;
        Ok(())
    }

    /// The offset of the mark of this id. `None` where there is none.
    pub fn mark(&self, id: u32) -> Option<u32>
        ensures { result ≡ offset_of id self.now.marks }
    {
        let mut steps = Steps::new();
        let at = self.marks.find(id, &mut steps)?;
        let mark = self.marks.get(at, &mut steps)?;
        Some(mark.0)
    }
}
