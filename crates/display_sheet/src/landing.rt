//! Lines of a sheet that are wrapped from now on.
ghost use Rattle.std.specs.Prelude.{◌≡◌, length, IfOk, OnErr, OnOk};
ghost use Rattle.cell_units.specs.Lawful.{IsWidth};
ghost use Rattle.plain_rows.specs.Rows.{line_elements};
ghost use Rattle.display_sheet.specs.Landing.{AreCutsAt, AreLanded, FitLines, lists_of, with_landed_lines};

use crate::sheet::Sheet;
use crate::wraps::{Wrapped, Wraps};
use cell_line::Cuts;
use cell_units::NoMemory;
use std::alloc::Global;
use std::sync::Arc;

/// The lines at the places are wrapped at the width, each with its cuts.
fn landed(
    alloc: Global,
    wraps: &Wraps,
    lines: &[Option<u32>],
    width: u32,
    cuts: &[Cuts],
) -> Result<Wraps, NoMemory>
    requires { FitLines (length wraps.now) lines.now (lists_of cuts.now) }
    ensures { IfOk result (AreLanded width lines.now (lists_of cuts.now) wraps.now) }
{
    let mut landed = wraps.copy(alloc)?;
    for i in 0..lines.len() {
        if let Some(line) = lines[i] {
            let rows = cuts[i].len() as u32 + 1;
            landed.set(alloc, line, Wrapped { mark: width, rows })?;
        }
    }
    Ok(landed)
}

impl Sheet {
    /// The lines at the places are wrapped at the width in cells from now on, with these cuts. Only chunks with such a
    /// line are copied.
    pub fn land(
        &mut self,
        alloc: Global,
        lines: &[Option<u32>],
        width: u32,
        cuts: &[Cuts],
    ) -> Result<(), NoMemory>
        requires width { IsWidth width }
        requires lines { AreCutsAt (line_elements self.old) width lines.now (lists_of cuts.now) }
        ensures landed { OnOk result (self.new ≡ with_landed_lines width lines.now self.old) }
        ensures unchanged { OnErr result (self.new ≡ self.old) }
    {
        let landed = landed(alloc, &self.wraps, lines, width, cuts)?;
        self.wraps = Arc::new(alloc, landed)?;
        Ok(())
    }
}
