//! Positions of a layer: an offset, with its place in bytes and its display line.
ghost use Rattle.std.specs.Prelude.{◌≡◌};
ghost use Rattle.cell_units.specs.Text.{IsBoundary};
ghost use Rattle.fold_map.specs.Positions.{IsBefore, distance, position_of};

use crate::amount::Amount;
use cell_units::{Bias, Layer};

/// One of the two positions of an offset: its place in the layer's text, and the line of that.
#[derive(Clone, Copy)]
pub(crate) struct Position {
    pub(crate) offset: u32,
    pub(crate) place: u32,
    pub(crate) line: u32,
}

impl Position {
    /// The position of an offset by a bias.
    pub(crate) fn of<L: Layer>(layer: &L, offset: u32, bias: Bias) -> Position
        requires { IsBoundary (L.source layer.now).text offset }
        ensures { result ≡ position_of (L.source layer.now) offset bias }
    {
        // For the proof: the inlays and the folds fit the text.
        let _len = layer.buffer_len();
        let place = layer.place(offset, bias);
        Position {
            offset,
            place,
            line: layer.point(place).row,
        }
    }

    /// How much there is from this position to a later one.
    pub(crate) fn until(self, later: Position) -> Amount
        requires { IsBefore self later }
        ensures { result ≡ distance self later }
    {
        Amount {
            buffer: later.offset - self.offset,
            bytes: later.place - self.place,
            feeds: later.line - self.line,
        }
    }
}
