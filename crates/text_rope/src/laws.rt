//! What points mean in other words.
ghost use Rattle.std.specs.Prelude.{◌≡◌, ℕ, List};
ghost use Rattle.cell_units.specs.Text.{IsBoundary};
ghost use Rattle.cell_units.specs.declared.place.Bias.{Bias};
ghost use Rattle.cell_units.specs.declared.place.Point.{Point};
ghost use Rattle.cell_units.specs.Layers.{point_of};
ghost use Rattle.cell_units.specs.Points.{IsAtPoint};

/// Laws of every text: a point has one offset, and the point of a boundary has that boundary for either bias. It does
/// nothing.
pub fn point_laws()
    ensures one { (text : List ℕ) (point : Point) (bias : Bias) (r s : ℕ) → IsAtPoint text point bias r → IsAtPoint text point bias s → r ≡ s }
    ensures back { (text : List ℕ) (o : ℕ) (bias : Bias) → IsBoundary text o → IsAtPoint text (point_of text o) bias o }
{}
