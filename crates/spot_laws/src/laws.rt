//! What is so of the rows and spots of every lawful record.
ghost use Rattle.std.specs.Prelude.{ℕ, ◌≤◌, IsTrue, List, [], ◌∷◌, codes, length};
ghost use Rattle.cell_units.specs.declared.place.Bias.{Bias};
ghost use Rattle.cell_units.specs.declared.place.Bias.TheVariants.{Left, Right};
ghost use Rattle.cell_units.specs.declared.place.Spot.{Spot};
ghost use Rattle.cell_units.specs.declared.place.Side.TheVariants.{Above};
ghost use Rattle.cell_units.specs.Worked.{block, fold, inlay, settled};
ghost use Rattle.cell_units.specs.Text.{IsBoundary};
ghost use Rattle.cell_units.specs.Record.{Record};
ghost use Rattle.cell_units.specs.Lawful.{IsLawful};
ghost use Rattle.spot_laws.specs.Laws.{IsGreatestAt, IsLeastAt, IsUpTo};
ghost use Rattle.plain_rows.specs.Spots.{back, clip, is_open, show, spot_le};

/// Laws of every lawful record: its offsets are shown in order, and each spot leads back to an offset. Call it where
/// one of them is wanted; it does nothing.
///
/// `Show` doesn't fall as offsets rise, shows Left at or before Right, and doesn't fall among open positions. `Back`
/// returns the least and the greatest offset with an open position at the clipped spot, and so there always is one. It
/// doesn't fall as spots rise. A position that is open lies between the two offsets that its own spot leads back to.
pub fn show_laws()
    ensures show_rises { (r : Record) (o p : ℕ) (bias : Bias) → IsLawful r → o ≤ p → p ≤ length r.text →
        IsTrue (spot_le (show r o bias) (show r p bias)) }
    ensures left_is_first { (r : Record) (o : ℕ) → IsLawful r → o ≤ length r.text → IsTrue (spot_le (show r o Left) (show r o Right)) }
    ensures open_show_rises { (r : Record) (o : ℕ) (b : Bias) (p : ℕ) (c : Bias) → IsLawful r →
        IsTrue (is_open r o b) → IsTrue (is_open r p c) → IsUpTo o b p c → p ≤ length r.text → IsTrue (spot_le (show r o b) (show r p c)) }
    ensures back_left { (r : Record) (d : Spot) → IsLawful r → IsLeastAt r (clip r d Left) (back r d Left) }
    ensures back_right { (r : Record) (d : Spot) → IsLawful r → IsGreatestAt r (clip r d Right) (back r d Right) }
    ensures back_rises { (r : Record) (d e : Spot) (bias : Bias) → IsLawful r → IsTrue (spot_le d e) → back r d bias ≤ back r e bias }
    ensures back_of_shown { (r : Record) (o : ℕ) (b : Bias) → IsLawful r → IsBoundary r.text o → IsTrue (is_open r o b) →
        (back r (show r o b) Left ≤ o) × (o ≤ back r (show r o b) Right) }
{}

/// A record with an inlay, a fold and a block that is lawful, so that the laws aren't of nothing. It does nothing.
pub fn worked_record()
    ensures { IsLawful (settled (codes "abcdef") (inlay 5 Right 1 (codes "xy") ∷ []) (fold 1 4 1 ∷ []) (block 0 1 Above (codes "up" ∷ []) ∷ []) 80) }
{}
