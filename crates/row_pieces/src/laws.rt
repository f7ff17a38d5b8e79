//! Laws of the pieces of rows, and of changed rows.
ghost use Rattle.std.specs.Prelude.{◌-◌, ◌≡◌, ◌≤◌, ◌<◌, ◌+◌, ◌++◌, ◌∷◌, ℕ, [], List, true, flat_map, length, map, slice_index_or};
ghost use Rattle.cell_units.specs.declared.piece.Piece.{Piece};
ghost use Rattle.cell_units.specs.declared.place.Bias.{Bias};
ghost use Rattle.cell_units.specs.Lawful.{IsAllowed, IsLawful, IsMarked};
ghost use Rattle.cell_units.specs.LineCounts.{TouchesOneRun};
ghost use Rattle.cell_units.specs.Operation.{Operation, operated};
ghost use Rattle.cell_units.specs.Touched.{EachLine, NoLine, RowRange, Rows, row_range, touched};
ghost use Rattle.cell_units.specs.Record.{Record};
ghost use Rattle.cell_line.specs.Elements.{elements_of};
ghost use Rattle.cell_line.specs.Wrapping.{cuts_of};
ghost use Rattle.plain_rows.specs.Rows.{rows_of};
ghost use Rattle.plain_rows.specs.Spots.{is_open};
ghost use Rattle.display_sheet.specs.LineStep.{line_step};
ghost use Rattle.row_pieces.specs.declared.row_change.RowChange.{RowChange};
ghost use Rattle.row_pieces.specs.declared.row_piece.RowPiece.{RowPiece};
ghost use Rattle.row_pieces.specs.Pieces.{cells_in, indent_before, joined, pieces_by_row, pieces_in_rows, text_of};
ghost use Rattle.row_pieces.specs.Laws.{AreApart, BeginsAt, IsBlockLine, IsShownAmong, KeepsBlocks, KeepsLooks, LeavesBlocks, LieApart, PartsElements, bits_of_row, elements_of_line, indent_at, line_at, place_at, row_at, unplaced};
ghost use Rattle.row_pieces.specs.Changed.{IsLanded, IsTrue, RowLook, change, covering, look_of, looks, looks_by_line, no_change, rows_of_lines};
ghost use Rattle.row_pieces.specs.Operated.{AreAllowed, AreReplaced, AreTouched, Covers, IsChangeOf, lines_between, stepped_by};

/// Laws of the pieces of every record and of every line. Call it where one of them is wanted; it does nothing.
pub fn piece_laws()
    // The texts of a row's pieces, joined, are the row's text.
    ensures texts { (r : Record) →
        map text_of (pieces_in_rows r) ≡ map (λ row. row.text) (rows_of r) }

    // The pieces of a row of a line are the row's elements, joined, after its indent.
    ensures rows { (pieces : List Piece) (tab width row : ℕ) →
        row ≤ length (cuts_of (elements_of pieces tab) width) →
        slice_index_or (pieces_by_row pieces tab width) row []
        ≡ indent_before (indent_at (elements_of pieces tab) width row)
        (joined (bits_of_row pieces tab width row)) }

    // Joining keeps the cells and parts where elements are parted, and no two neighbours are of one piece.
    ensures cells { (pieces : List RowPiece) → cells_in (joined pieces) ≡ cells_in pieces }
    ensures apart { (elements : List RowPiece) → AreApart (joined elements) }
    ensures parted { (elements before after : List RowPiece) →
        joined elements ≡ before ++ after → PartsElements elements before after }

    // A piece begins at the column that the cells before it make, and a position is shown among its row's pieces.
    ensures begins { (pieces : List Piece) (tab width row : ℕ) →
        (before : List RowPiece) (p : RowPiece) (after : List RowPiece) →
        row ≤ length (cuts_of (elements_of pieces tab) width) →
        joined (bits_of_row pieces tab width row) ≡ before ++ (p ∷ after) →
        BeginsAt (elements_of pieces tab) width row before }
    ensures shown { (r : Record) (o : ℕ) (bias : Bias) → IsLawful r → o ≤ length r.text →
        IsShownAmong r o bias (line_at r o bias) (place_at r o bias) (row_at r o bias) }

    // Where it is open, the elements before it end at or before its offset, and the others begin at or after it.
    ensures open_place { (r : Record) (o : ℕ) (bias : Bias) → IsLawful r → o ≤ length r.text →
        is_open r o bias ≡ true →
        LieApart (elements_of_line r (line_at r o bias)) (place_at r o bias) o }
{}

/// Laws of the rows that operations replace, one after another. It does nothing.
pub fn operated_laws()
    // The lines that an operation replaces are replaced truly, and so are their rows.
    ensures lines { (operation : Operation) (r : Record) (lines : RowChange) →
        IsLawful r → IsAllowed operation r → AreReplaced operation r lines →
        IsTrue lines (looks_by_line r) (looks_by_line (line_step operation r)) }
    ensures rows { (operation : Operation) (r : Record) (rows : RowChange) →
        IsLawful r → IsAllowed operation r → IsChangeOf operation r rows →
        IsTrue rows (looks r) (looks (line_step operation r)) }

    // An operation that touches the rows from that of one offset to that of another replaces the lines from that of the
    // start of the first row to that of the end of the last. One that touches each line replaces all.
    ensures between { (operation : Operation) (r : Record) (a b : ℕ) (after : RowRange) →
        IsLawful r → IsAllowed operation r → a ≤ b → b ≤ length r.text →
        touched operation r ≡ Rows (row_range r.text a b) after →
        AreTouched operation r (lines_between r (line_step operation r) a b) }
    ensures each { (operation : Operation) (r : Record) → IsLawful r → IsAllowed operation r →
        touched operation r ≡ EachLine →
        AreTouched operation r (change 0 (length r.marks) (length (line_step operation r).marks)) }
    ensures none { (operation : Operation) (r : Record) → IsLawful r → IsAllowed operation r →
        touched operation r ≡ NoLine → AreTouched operation r no_change }

    // What covers a change that was true and those of operations after it is true.
    ensures covers { (c : RowChange) (ops : List Operation) (q r : Record) (all : RowChange) →
        IsLawful r → AreAllowed ops r → IsTrue c (looks q) (looks r) → Covers c ops r all →
        IsTrue all (looks q) (looks (stepped_by ops r)) }
{}

/// Laws of changes of rows. It does nothing.
pub fn change_laws()
    // A line looks the same wherever its pieces lie in the buffer.
    ensures moved { (ps qs : List Piece) (tab width : ℕ) → unplaced ps ≡ unplaced qs →
        map (map look_of) (pieces_by_row ps tab width)
        ≡ map (map look_of) (pieces_by_row qs tab width) }

    // The text rows of each line that an allowed operation doesn't touch look the same after it.
    ensures kept { (operation : Operation) (r : Record) → IsLawful r → IsAllowed operation r →
        (run : TouchesOneRun (touched operation r) r (operated operation r)) →
        KeepsLooks run.front run.before run.after r (line_step operation r) }

    // So do its blocks, where the operation is on none: the run of touched lines is replaced truly.
    ensures blocks { (operation : Operation) (r : Record) → IsLawful r → IsAllowed operation r →
        (run : TouchesOneRun (touched operation r) r (operated operation r)) →
        LeavesBlocks operation →
        KeepsBlocks run.front run.before run.after r (line_step operation r) }
    ensures operated { (operation : Operation) (r : Record) → IsLawful r → IsAllowed operation r →
        LeavesBlocks operation →
        (run : TouchesOneRun (touched operation r) r (operated operation r)) →
        IsTrue (change run.front (run.front + run.before) run.after)
        (looks_by_line r) (looks_by_line (line_step operation r)) }

    // An operation on a block replaces the block's line truly.
    ensures on_blocks { (operation : Operation) (r : Record) (line : ℕ) →
        IsLawful r → IsAllowed operation r → line < length r.marks → IsBlockLine operation r line →
        IsTrue (change line (line + 1) 1) (looks_by_line r) (looks_by_line (line_step operation r)) }

    // One change for two in turn is true, and so is that of rows for a change of lines.
    ensures covers { (c d : RowChange) (old between new : List RowLook) →
        IsTrue c old between → IsTrue d between new → IsTrue (covering c d) old new }
    ensures lines { (c : RowChange) (old new : List (List RowLook)) → IsTrue c old new →
        IsTrue (rows_of_lines c old new)
        (flat_map (λ rows. rows) old) (flat_map (λ rows. rows) new) }

    // Where other marks land on lines, the rows of these lines make place for those of as many.
    ensures landed { (r s : Record) (first end : ℕ) → IsMarked r → IsLanded r s first end →
        IsTrue (rows_of_lines (change first end (end - first)) (looks_by_line r) (looks_by_line s))
        (looks r) (looks s) }
{}
