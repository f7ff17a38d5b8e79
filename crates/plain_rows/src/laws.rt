//! What the definitions of spots mean in other words.
ghost use Rattle.std.specs.Prelude.{◌≡◌, IsTrue, List, Some};
ghost use Rattle.cell_units.specs.declared.place.Bias.{Bias};
ghost use Rattle.cell_units.specs.declared.place.Bias.TheVariants.{Left, Right};
ghost use Rattle.cell_units.specs.declared.place.Spot.{Spot};
ghost use Rattle.cell_units.specs.Record.{Record};
ghost use Rattle.plain_rows.specs.Laws.{IsGreatest, IsLeast, IsNearestAfter, IsNearestBefore, IsValidSpot};
ghost use Rattle.plain_rows.specs.Spots.{clip, greatest, least, spot_le, valid_spots};

/// Laws of every record. Call it where one of them is wanted; it does nothing.
pub fn spot_laws()
    ensures least { (spots : List Spot) (s : Spot) → least spots ≡ Some s → IsLeast spots s }
    ensures greatest { (spots : List Spot) (s : Spot) → greatest spots ≡ Some s → IsGreatest spots s }
    ensures clip_is_valid { (r : Record) (d : Spot) (bias : Bias) → IsValidSpot r (clip r d bias) }
    ensures valid_is_own_clip { (r : Record) (s : Spot) (bias : Bias) → IsValidSpot r s → clip r s bias ≡ s }
    ensures clip_once { (r : Record) (d : Spot) (bias later : Bias) → clip r (clip r d bias) later ≡ clip r d bias }
    ensures nearest_before { (r : Record) (d : Spot) → IsNearestBefore (valid_spots r) d (clip r d Left) }
    ensures nearest_after { (r : Record) (d : Spot) → IsNearestAfter (valid_spots r) d (clip r d Right) }
    ensures clip_rises { (r : Record) (d e : Spot) (bias : Bias) → IsTrue (spot_le d e) → IsTrue (spot_le (clip r d bias) (clip r e bias)) }
{}
