//! A text under inlays.
ghost use Rattle.std.specs.Prelude.{◌≡◌, IfOk};

use crate::text::{INLAY, lines_of_letters, offset_of};
use cell_units::{Bias, Fault, NoMemory, Refusal, Shift, Steps, TextFault};
use inlay_map::{InlayMap, InlaySnapshot};
use std::alloc::Global;
use text_rope::Rope;

/// The id of the first inlay. Those below it are free.
pub const FIRST: u32 = 1_000_000;

/// A text, and the map of its inlays.
#[derive(Drop)]
pub struct Laid {
    rope: Rope,
    map: InlayMap,
    ghost one_text: { map.current.text ≡ rope },
}

impl Laid {
    /// A text of so many bytes under so many inlays evenly spread, whose ids rise with their offsets.
    pub fn build(alloc: Global, bytes: u32, inlays: u32, steps: &mut Steps) -> Result<Laid, Fault> {
        let mut laid = Laid::plain(alloc, bytes, steps)?;
        for number in 0..inlays {
            let id = FIRST.wrapping_add(number);
            laid.add(alloc, id, offset_of(number, inlays, bytes), steps)?;
        }
        Ok(laid)
    }

    /// The text alone.
    fn plain(alloc: Global, bytes: u32, steps: &mut Steps) -> Result<Laid, Fault> {
        let letters = lines_of_letters(alloc, bytes)?;
        let rope = match Rope::from_bytes(alloc, &letters, steps) {
            Ok(rope) => rope,
            Err(TextFault::NoMemory) => return Err(Fault::NoMemory),
            Err(_) => return Err(Fault::Refused(Refusal::TooLong)),
        };
        let map = InlayMap::new(alloc, rope.share()?, steps)?;
        Ok(Laid { rope, map })
    }

    /// The snapshot of what is there.
    pub fn show(&mut self, alloc: Global, steps: &mut Steps) -> Result<InlaySnapshot, NoMemory>
        ensures { IfOk result (λ layer. layer ≡ self.new.map.current) }
    {
        let rope = self.rope.share()?;
        let (layer, _) = self.map.sync(alloc, rope, None, steps)?;
        Ok(layer)
    }

    /// Puts a text in the place of a range, and shows what is there then.
    pub fn replace(
        &mut self,
        alloc: Global,
        start: u32,
        end: u32,
        text: &str,
        steps: &mut Steps,
    ) -> Result<InlaySnapshot, Fault>
        ensures { IfOk result (λ layer. layer ≡ self.new.map.current) }
    {
        let bytes = self.rope.len();
        // For the proof: the inlays are at boundaries of the text.
        let _inlays = self.map.len();
        let mut rope = self.rope.share()?;
        rope.replace(alloc, start, end, text, steps)?;
        let shift = Shift::new(start, end, rope.len() - (bytes - (end - start)));
        let next = rope.share()?;
        let (layer, _) = self.map.sync(alloc, next, Some(shift), steps)?;
        self.rope = rope;
        Ok(layer)
    }

    /// Adds an inlay at an offset.
    pub fn add(
        &mut self,
        alloc: Global,
        id: u32,
        offset: u32,
        steps: &mut Steps,
    ) -> Result<(), Fault> {
        let bias = if id % 2 == 0 { Bias::Left } else { Bias::Right };
        self.map.insert(alloc, id, offset, bias, INLAY, steps)?;
        Ok(())
    }

    /// Takes an inlay away.
    pub fn remove(&mut self, alloc: Global, id: u32, steps: &mut Steps) -> Result<(), Fault> {
        self.map.remove(alloc, id, steps)?;
        Ok(())
    }
}
