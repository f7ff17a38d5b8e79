//! Worked rows of the definitions: lines and blocks of which the rows are known.
ghost use Rattle.std.specs.Prelude.{◌≡◌, ◌++◌, [], ◌∷◌, codes};
ghost use Rattle.cell_units.specs.declared.place.Side.TheVariants.{Above, Below};
ghost use Rattle.cell_units.specs.Inlaid.{placeholder};
ghost use Rattle.cell_units.specs.Worked.{block, fold};
ghost use Rattle.plain_rows.specs.Worked.{block_row, head, more};
ghost use Rattle.block_map.specs.Between.{place_of_row, rows_between};
ghost use Rattle.block_map.specs.Worked.{rows_shown, two_lines};

/// Lines and blocks of which the rows are known. It does nothing.
pub fn worked_rows()
    ensures block_above { let blocks = block 0 1 Above (codes "x" ∷ codes "y" ∷ []) ∷ [] in
        rows_shown (codes "abc") [] blocks (codes "abc" ∷ [])
        ≡ block_row (codes "x") ∷ block_row (codes "y") ∷ head (codes "abc") ∷ [] }
    ensures blocks_between { let note = block 0 2 Below (codes "note" ∷ []) in
        let rules = block 2 1 Above (codes "==" ∷ codes "--" ∷ []) in
        rows_shown (codes "a\nb") [] (note ∷ rules ∷ []) (codes "a" ∷ codes "b" ∷ [])
        ≡ head (codes "a") ∷ block_row (codes "note") ∷ block_row (codes "==")
        ∷ block_row (codes "--") ∷ head (codes "b") ∷ [] }
    ensures block_at_placeholder { let text = codes "a\nb\nc" in
        let line = codes "a" ++ placeholder ++ codes "c" in
        let blocks = block 2 1 Above (codes "-- b" ∷ []) ∷ [] in
        rows_shown text (fold 1 4 1 ∷ []) blocks (line ∷ [])
        ≡ block_row (codes "-- b") ∷ head line ∷ [] }
    ensures between_wrapped { rows_between two_lines
        ≡ head (codes "a ") ∷ more (codes "b") ∷ block_row (codes "note") ∷ block_row (codes "==")
        ∷ head (codes "c") ∷ [] }
    ensures row_of { (place_of_row two_lines 0 1 ≡ 1) × (place_of_row two_lines 1 0 ≡ 4) }
{}
