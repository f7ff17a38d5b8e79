//! A text under inlays, of which all can be asked.
ghost use Rattle.std.specs.Prelude.{◌≡◌};

use crate::callers::replace;
use cell_units::{Bias, Fault, Layer, NoMemory, Steps};
use inlay_map::{InlayMap, InlaySnapshot};
use std::alloc::Global;
use std::test::Fail;
use test_support::told::{Stretch, numbers};
use text_rope::Rope;

/// A text, the map of its inlays, and the last snapshot of these.
#[derive(Drop)]
pub(crate) struct Laid {
    pub alloc: Global,
    rope: Rope,
    map: InlayMap,
    pub layer: InlaySnapshot,
    ghost one_text: { map.current.text ≡ rope },
}

impl Laid {
    /// The text without inlays.
    pub(crate) fn new(alloc: Global, text: &str) -> Result<Laid, Fail> {
        let mut steps = Steps::new();
        let rope = Rope::from_bytes(alloc, text.as_bytes(), &mut steps)?;
        let mut map = InlayMap::new(alloc, rope.share()?, &mut steps)?;
        let (layer, _) = map.sync(alloc, rope.share()?, None, &mut steps)?;
        Ok(Laid {
            alloc,
            rope,
            map,
            layer,
        })
    }

    /// An equal one.
    pub(crate) fn share_all(&self) -> Result<Laid, NoMemory> {
        let rope = self.rope.share()?;
        let map = self.map.share()?;
        let layer = Layer::share(&self.layer)?;
        Ok(Laid {
            alloc: self.alloc,
            rope,
            map,
            layer,
        })
    }

    /// Adds an inlay, which is shown from the next snapshot on.
    pub(crate) fn insert(
        &mut self,
        id: u32,
        offset: u32,
        bias: Bias,
        text: &str,
    ) -> Result<(), Fault> {
        let mut steps = Steps::new();
        self.map
            .insert(self.alloc, id, offset, bias, text, &mut steps)?;
        Ok(())
    }

    /// Takes an inlay away. It is shown up to the next snapshot.
    pub(crate) fn remove(&mut self, id: u32) -> Result<(), Fault> {
        self.map.remove(self.alloc, id, &mut Steps::new())
    }

    /// Shows what is there.
    pub(crate) fn sync(&mut self) -> Result<Stretch, NoMemory> {
        let rope = self.rope.share()?;
        let (layer, answer) = self.map.sync(self.alloc, rope, None, &mut Steps::new())?;
        self.layer = layer;
        Ok(numbers(answer))
    }

    /// Puts a text in the place of a range, and shows what is there then.
    pub(crate) fn edit(&mut self, start: u32, end: u32, text: &str) -> Result<Stretch, Fault> {
        let mut rope = self.rope.share()?;
        let mut steps = Steps::new();
        let map = &mut self.map;
        let (layer, answer) = replace(self.alloc, &mut rope, map, start, end, text, &mut steps)?;
        self.rope = rope;
        self.layer = layer;
        Ok(numbers(answer))
    }
}
