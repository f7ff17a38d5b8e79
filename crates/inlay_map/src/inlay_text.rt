//! What an inlay carries: its text as it was given, and as it is shown.
ghost use Rattle.std.specs.Prelude.{◌≡◌, IfOk};
ghost use Rattle.cell_units.specs.Text.{clean};

use cell_units::{NoMemory, Text, cleaned};
use std::alloc::Global;
use std::marker::Model;
use std::sync::Arc;
use sum_core::Load;

/// A text as it was given and as it is shown, with line breaks that are line feeds. Contracts see it as it was given.
/// All copies share it.
#[derive(Drop)]
pub(crate) struct InlayText {
    texts: Arc<Texts>,
}

#[derive(Drop)]
struct Texts {
    given: Text,
    shown: String,
}

impl Model for InlayText {
    ghost use Rattle.std.specs.Prelude.{◌≡◌, ℕ, List, string_bytes};
    ghost use Rattle.cell_units.specs.Text.{clean};
    ghost use Rattle.std.specs.Arc.{arc_value};

    ghost Value = { List ℕ };

    ghost view = { λ t. (arc_value t.texts).given };

    ghost invariant = { λ t.
        string_bytes (arc_value t.texts).shown ≡ clean (arc_value t.texts).given };
}

impl InlayText {
    /// The text, copied.
    pub(crate) fn new(alloc: Global, text: &str) -> Result<InlayText, NoMemory>
        ensures { IfOk result (λ t. t ≡ text.now) }
    {
        let texts = Texts {
            given: Text::from_str(alloc, text)?,
            shown: cleaned(alloc, text)?,
        };
        Ok(InlayText {
            texts: Arc::new(alloc, texts)?,
        })
    }

    /// The text as it was given.
    pub(crate) fn given(&self) -> &str
        ensures { result.now ≡ self.now }
    {
        self.texts.given.as_str()
    }

    /// The text as it is shown.
    pub(crate) fn shown(&self) -> &str
        ensures { result.now ≡ clean self.now }
    {
        self.texts.shown.as_str()
    }
}

impl Load for InlayText {
    fn copy(&self, _alloc: Global) -> Result<InlayText, NoMemory> {
        Ok(InlayText {
            texts: Arc::try_clone(&self.texts)?,
        })
    }
}
