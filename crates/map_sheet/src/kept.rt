//! The sheet as a display keeps it.
use crate::opening::of_bytes;
use crate::sheet::{Held, MapSheet};
use cell_line::{Cuts, Lines, Run};
use cell_units::{Bias, Fault, NoMemory, Point, Spot, Steps, Text, TextFault, text_laws};
use display_sheet::{LineSplice, MarkRun, Op, Shown, Splice};
use kept_sheet::{JobSheet, Sheet};
use plain_rows::{Plain, back_in, clip_in, show_in};
use std::alloc::Global;

impl Sheet for MapSheet {
    ghost kept = { λ s. s };

    fn opened(alloc: Global, bytes: &[u8], steps: &mut Steps) -> Result<MapSheet, TextFault> {
        of_bytes(alloc, bytes, steps)
    }

    fn share(&self) -> Result<MapSheet, NoMemory> {
        self.shared()
    }

    fn lines(&self) -> u32 {
        // For the proof: the record is lawful.
        self.lawful();
        let lines = self.wrapped().lines();
        lines.lines()
    }

    fn text_len(&self) -> u32 {
        self.text().rope().len()
    }

    fn width(&self) -> u32 {
        self.wrapped().width()
    }

    fn is_boundary(&self, offset: u32, steps: &mut Steps) -> bool {
        // For the proof: the record is lawful, and characters of a text begin at its boundaries.
        self.lawful();
        text_laws();
        self.text().rope().is_boundary(offset, steps)
    }

    fn operated(
        &self,
        alloc: Global,
        op: &Op,
        steps: &mut Steps,
    ) -> Result<(MapSheet, LineSplice), Fault> {
        match self.done(alloc, op, steps) {
            Ok(made) => Ok(made),
            Err(fault) => Err(fault),
        }
    }

    fn replaced(
        &self,
        alloc: Global,
        splice: &Splice,
        steps: &mut Steps,
    ) -> Result<(MapSheet, LineSplice), NoMemory> {
        self.with_splice(alloc, splice, steps)
    }

    fn next_run(&self, _from: u32, out: &[Run], steps: &mut Steps) -> Option<Run> {
        self.wrapped().next_run(out, steps)
    }

    fn is_settled(&self) -> bool {
        self.wrapped().is_settled()
    }

    fn row_count(&self) -> u32 {
        self.shown().row_count()
    }

    fn row(&self, alloc: Global, row: u32, steps: &mut Steps) -> Result<Option<Shown>, NoMemory> {
        self.shown().row(alloc, row, steps)
    }

    fn rows(
        &self,
        alloc: Global,
        first: u32,
        count: u32,
        steps: &mut Steps,
    ) -> Result<Vec<Shown>, NoMemory> {
        self.shown().rows(alloc, first, count, steps)
    }

    fn show(
        &self,
        alloc: Global,
        offset: u32,
        bias: Bias,
        steps: &mut Steps,
    ) -> Result<Spot, NoMemory> {
        show_in(alloc, self, offset, bias, steps)
    }

    fn clip(
        &self,
        alloc: Global,
        spot: Spot,
        bias: Bias,
        steps: &mut Steps,
    ) -> Result<Spot, NoMemory> {
        clip_in(alloc, self, spot, bias, steps)
    }

    fn back(
        &self,
        alloc: Global,
        spot: Spot,
        bias: Bias,
        steps: &mut Steps,
    ) -> Result<u32, NoMemory> {
        back_in(alloc, self, spot, bias, steps)
    }

    fn marks(&self, alloc: Global, steps: &mut Steps) -> Result<Vec<MarkRun>, NoMemory> {
        self.wrapped().rows().marks(alloc, steps)
    }

    fn plain(&self, alloc: Global, steps: &mut Steps) -> Result<Plain, NoMemory> {
        self.listed(alloc, steps)
    }

    fn offset_of(&self, point: Point, bias: Bias, steps: &mut Steps) -> u32 {
        self.text().rope().offset_of(point, bias, steps)
    }

    fn slice(
        &self,
        alloc: Global,
        start: u32,
        end: u32,
        steps: &mut Steps,
    ) -> Result<Text, NoMemory> {
        self.text().rope().slice(alloc, start, end, steps)
    }
}

impl JobSheet for MapSheet {
    type Held = Held;

    fn held(&self) -> Result<Held, NoMemory> {
        Lines::share(self.wrapped().lines())
    }

    fn landed(
        &self,
        alloc: Global,
        old: &Held,
        run: Run,
        places: &[Option<u32>],
        wraps: &[Cuts],
        steps: &mut Steps,
    ) -> Result<MapSheet, NoMemory> {
        self.land_run(alloc, old, run, places, wraps, steps)
    }
}
