//! What the definitions mean in other words.
ghost use Rattle.std.specs.Prelude.{◌≡◌, ◌≢◌, ◌≤◌, ◌<◌, ◌+◌, IsTrue, nat_le, nat_lt, ℕ, false, List, [], length, count_by, flat_map};
ghost use Rattle.std.specs.List.{All, AllPairs};
ghost use Rattle.std.specs.Str.{IsUtf8};
ghost use Rattle.cell_units.specs.declared.place.Bias.{Bias};
ghost use Rattle.cell_units.specs.declared.place.Bias.TheVariants.{Left, Right};
ghost use Rattle.cell_units.specs.declared.place.Point.{Point};
ghost use Rattle.cell_units.specs.Text.{IsBoundary, IsText, clean, is_feed, row_of};
ghost use Rattle.cell_units.specs.Record.{Block, Fold, Inlay, Record, block_le, fold_le, inlay_le, opened};
ghost use Rattle.cell_units.specs.Operation.{Operation, operated};
ghost use Rattle.cell_units.specs.Touched.{touched};
ghost use Rattle.cell_units.specs.LineCounts.{GoWithLines, KeepsCount, KeepsPieces, KeepsRows, RowsAreOneRun, TouchesOneRun, operated_offset, operated_piece};
ghost use Rattle.cell_units.specs.Inlaid.{Token, bytes_of, inlaid_place};
ghost use Rattle.cell_units.specs.Folded.{covered, display_lines, folded, folded_place, line_of, place_in_line};
ghost use Rattle.cell_units.specs.Pieces.{ArePiecesOf, before_break, pieces_of};
ghost use Rattle.cell_units.specs.Points.{IsAtPoint, offset_at};
ghost use Rattle.cell_units.specs.Joined.{IsJoined, ShowsOnePlaceholder, ShowsPlaceholder};
ghost use Rattle.cell_units.specs.Lawful.{AreBlocks, AreFolds, AreInlays, HasLawfulEntries, IsAllowed, IsLawful, IsWellFormed};
ghost use Rattle.cell_units.specs.Layers.{Source, inlay_source, place_of, plain_source, point_of, shown_lines, shown_text, span_of, unfolded};
ghost use Rattle.cell_units.specs.Folding.{folded_token, inlaid_token};
ghost use Rattle.cell_units.specs.Laws.{AreUncovered, HasNoFeed, HasNoReturn, HasRow, IsCopied, IsInOneRow, inlaid_bytes, ShowPlaceholder, ShowsAsInlaid, TellsBoundaries};

/// Laws of every text. Call it where one of them is wanted; it does nothing.
pub fn text_laws()
    ensures no_return { (bytes : List ℕ) → HasNoReturn (clean bytes) }
    ensures same { (bytes : List ℕ) → HasNoReturn bytes → clean bytes ≡ bytes }
    ensures again { (bytes : List ℕ) → clean (clean bytes) ≡ clean bytes }
    ensures boundaries { (text : List ℕ) → IsUtf8 text → TellsBoundaries text }
    ensures clean_utf8 { (bytes : List ℕ) → IsUtf8 bytes → IsUtf8 (clean bytes) }
    ensures points { (text : List ℕ) (point : Point) (bias : Bias) → IsUtf8 text → IsAtPoint text point bias (offset_at text point bias) }
{}

/// Laws of every display line: its pieces are its longest runs of the buffer, of one inlay or of one placeholder. None
/// is empty, and together they are the line's bytes. It does nothing.
pub fn piece_laws()
    ensures runs { (line : List Token) → ArePiecesOf (before_break line) (pieces_of line) }
    ensures some { (line : List Token) → All (λ piece. 0 < length piece.text) (pieces_of line) }
    ensures bytes { (line : List Token) → flat_map (λ piece. piece.text) (pieces_of line) ≡ flat_map bytes_of (before_break line) }
{}

/// Laws of every list of folds: placeholders are the joined folds, and the rest is shown as without folds. It does
/// nothing.
pub fn fold_laws()
    ensures joined_is_shown { (folds : List Fold) (start end : ℕ) → IsJoined folds start end → ShowsOnePlaceholder folds start end }
    ensures shown_is_joined { (folds : List Fold) (offset : ℕ) → ShowsPlaceholder folds offset → (end : ℕ) × IsJoined folds offset end }
    ensures joined_hides { (inlays : List Inlay) (folds : List Fold) (start end : ℕ) → IsJoined folds start end → ShowPlaceholder inlays folds start end }
    ensures rest_is_inlaid { (inlays : List Inlay) (folds : List Fold) (offset : ℕ) → covered folds offset ≡ false → ShowsAsInlaid inlays folds offset }
{}

/// Laws of every layer. Its text is its lines, which have no feeds inside. A piece of the buffer is the buffer's, and
/// places don't fall. A text by itself is a layer: it shows itself, and each offset is at its own place. It does
/// nothing.
pub fn layer_laws()
    ensures lines { (source : Source) → IsWellFormed source → length (shown_lines source) ≡ count_by is_feed (shown_text source) + 1 }
    ensures no_feeds { (source : Source) → IsWellFormed source → All (λ pieces. All HasNoFeed pieces) (shown_lines source) }
    ensures copied { (source : Source) → IsWellFormed source → All (λ pieces. All (IsCopied source.text) pieces) (shown_lines source) }
    ensures rise { (source : Source) (o p : ℕ) (bias : Bias) → o ≤ p → p ≤ length source.text → place_of source o bias ≤ place_of source p bias }
    ensures left_first { (source : Source) (o : ℕ) → place_of source o Left ≤ place_of source o Right }
    ensures within { (source : Source) (o : ℕ) (bias : Bias) → o ≤ length source.text → place_of source o bias ≤ length (shown_text source) }
    ensures line { (source : Source) (o : ℕ) (bias : Bias) → IsWellFormed source → o ≤ length source.text →
        row_of (shown_text source) (place_of source o bias) ≡ line_of source.text source.inlays source.folds o bias }
    ensures column { (source : Source) (o : ℕ) (bias : Bias) → IsWellFormed source → o ≤ length source.text →
        (point_of (shown_text source) (place_of source o bias)).column ≡ place_in_line source.text source.inlays source.folds o bias }
    ensures spanned { (source : Source) (o : ℕ) (bias : Bias) → IsWellFormed source → o ≤ length source.text →
        HasRow (span_of source (line_of source.text source.inlays source.folds o bias)) (row_of source.text o) }
    ensures shows_itself { (text : List ℕ) → shown_text (plain_source text) ≡ text }
    ensures own_place { (text : List ℕ) (offset : ℕ) (bias : Bias) → offset ≤ length text → place_of (plain_source text) offset bias ≡ offset }
{}

/// Inlays in a text: each token has the inlays at its offset before it. An offset is after the inlays before it, and a
/// line is in one row. It does nothing.
pub fn inlay_laws()
    ensures tokens { (text : List ℕ) (inlays : List Inlay) → folded text inlays [] ≡ flat_map (inlaid_token inlays) (folded text [] []) }
    ensures left { (text : List ℕ) (inlays : List Inlay) (o : ℕ) → o ≤ length text →
        place_of (inlay_source text inlays) o Left ≡ o + inlaid_bytes (λ i. nat_lt i.offset o) inlays }
    ensures right { (text : List ℕ) (inlays : List Inlay) (o : ℕ) → o ≤ length text →
        place_of (inlay_source text inlays) o Right ≡ o + inlaid_bytes (λ i. nat_le i.offset o) inlays }
    ensures place { (text : List ℕ) (inlays : List Inlay) (o : ℕ) (bias : Bias) → inlaid_place text inlays o bias ≡ folded_place text inlays [] o bias }
    ensures one_row { (text : List ℕ) (inlays : List Inlay) → All (IsInOneRow text) (display_lines text inlays []) }
{}

/// Folds over a layer: each token is kept, is hidden or becomes a placeholder. Between folds places stay as far apart,
/// and a joined fold shows the three bytes of its placeholder. It does nothing.
pub fn folding_laws()
    ensures tokens { (text : List ℕ) (inlays : List Inlay) (folds : List Fold) →
        folded text inlays folds ≡ flat_map (folded_token folds) (folded text inlays []) }
    ensures apart { (source : Source) (o p : ℕ) → AreUncovered source o p →
        place_of source p Left + place_of (unfolded source) o Left ≡ place_of source o Left + place_of (unfolded source) p Left }
    ensures behind { (source : Source) (start end : ℕ) → IsJoined source.folds start end → start ≤ end → end ≤ length source.text →
        place_of source end Left ≡ place_of source start Right + 3 }
    ensures inside { (source : Source) (start end o : ℕ) → IsJoined source.folds start end → start < o → o < end → end ≤ length source.text →
        (place_of source o Left ≡ place_of source start Right) × (place_of source o Right ≡ place_of source start Right + 3) }
{}

/// Laws of the entries of every record: each comes at or before those after it, and no two have one id. It does
/// nothing.
pub fn entry_laws()
    ensures inlays { (text : List ℕ) (inlays : List Inlay) → AreInlays text inlays →
        AllPairs (λ (i j : Inlay). IsTrue (inlay_le i j) × (i.id ≢ j.id)) inlays }
    ensures folds { (text : List ℕ) (folds : List Fold) → AreFolds text folds →
        AllPairs (λ (f g : Fold). IsTrue (fold_le f g) × (f.id ≢ g.id)) folds }
    ensures blocks { (text : List ℕ) (blocks : List Block) → AreBlocks text blocks →
        AllPairs (λ (k l : Block). IsTrue (block_le k l) × (k.id ≢ l.id)) blocks }
{}

/// What every allowed operation leaves of a record with lawful entries. It is such a record, of whose display lines one
/// run is touched before and one after. The others are the same, moved. A buffer row that isn't touched stays in its
/// lines, as they are moved. It does nothing.
pub fn operation_laws()
    ensures opened { (text : List ℕ) → IsText text → IsLawful (opened text) }
    ensures lawful { (operation : Operation) (r : Record) → HasLawfulEntries r → IsAllowed operation r →
        HasLawfulEntries (operated operation r) }
    ensures one_run { (operation : Operation) (r : Record) → HasLawfulEntries r → IsAllowed operation r →
        TouchesOneRun (touched operation r) r (operated operation r) }
    ensures as_many { (operation : Operation) (r : Record) → HasLawfulEntries r → IsAllowed operation r →
        KeepsCount (touched operation r) r (operated operation r) }
    ensures same_pieces { (operation : Operation) (r : Record) → HasLawfulEntries r → IsAllowed operation r →
        KeepsPieces (touched operation r) (operated_piece operation) r (operated operation r) }
    ensures same_rows { (operation : Operation) (r : Record) → HasLawfulEntries r → IsAllowed operation r →
        KeepsRows (touched operation r) (operated_offset operation) r (operated operation r) }
    ensures with_lines { (operation : Operation) (r : Record) → HasLawfulEntries r → IsAllowed operation r →
        (run : TouchesOneRun (touched operation r) r (operated operation r)) →
        GoWithLines (operated_offset operation) r (operated operation r) run.front run.before run.after }
    ensures rows { (r : Record) (a b : ℕ) → HasLawfulEntries r → a ≤ b → b ≤ length r.text → RowsAreOneRun r a b }
{}
