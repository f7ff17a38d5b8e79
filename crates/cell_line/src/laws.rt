//! What the definitions mean in other words, and lines whose cuts are known.
ghost use Rattle.std.specs.Prelude.{◌≡◌, ℕ, ◌++◌, ◌<◌, ◌≤◌, List, [], ◌∷◌, codes};
ghost use Rattle.cell_units.specs.declared.piece.Piece.{Piece};
ghost use Rattle.cell_line.specs.declared.element.Element.{Element};
ghost use Rattle.cell_line.specs.Elements.{tab_cells_of};
ghost use Rattle.cell_line.specs.Wrapping.{cuts_of, indent_of};
ghost use Rattle.cell_line.specs.Laws.{CellsFollowColumns, CutsAreRowStarts, IsBoundedByBytes, StartsWhereSaid, TextsAreClusters};
ghost use Rattle.cell_line.specs.Worked.{ascii, cellless, tab, wide};

/// Laws of every line, at every tab size and width. Call it where a bound of them is wanted; it does nothing.
pub fn line_laws()
    ensures texts { (pieces : List Piece) (tab : ℕ) → TextsAreClusters pieces tab }
    ensures columns { (pieces : List Piece) (tab : ℕ) → CellsFollowColumns pieces tab }
    ensures bounds { (pieces : List Piece) (tab : ℕ) → tab ≤ 16 → IsBoundedByBytes pieces tab }
    ensures rows { (elements : List Element) (room start : ℕ) → StartsWhereSaid elements room start }
    ensures cuts { (elements : List Element) (width : ℕ) → 0 < width → CutsAreRowStarts elements width }
    ensures off { (elements : List Element) → cuts_of elements 0 ≡ [] }
{}

/// Lines whose cuts and indents are known. It does nothing.
pub fn worked_rows()
    ensures tab_columns { (tab_cells_of 4 0 ≡ 4) × (tab_cells_of 4 254 ≡ 2) × (tab_cells_of 4 256 ≡ 1) × (tab_cells_of 5 255 ≡ 5) }
    ensures hanging_blank { cuts_of (ascii (codes "hello world")) 5 ≡ 6 ∷ [] }
    ensures tab_indent { (cuts_of (tab 4 ∷ ascii (codes "foo bar baz")) 10 ≡ 5 ∷ 9 ∷ []) × (indent_of (tab 4 ∷ ascii (codes "foo bar baz")) 10 ≡ 4) }
    ensures long_word { cuts_of (ascii (codes "abcdefgh")) 3 ≡ 3 ∷ 6 ∷ [] }
    ensures wide_cells { cuts_of (ascii (codes "ab") ++ wide (230 ∷ 188 ∷ 162 ∷ []) ∷ wide (229 ∷ 173 ∷ 151 ∷ []) ∷ ascii (codes "cd")) 4 ≡ 3 ∷ [] }
    ensures indent_half { (cuts_of (ascii (codes "    fooooooooo")) 8 ≡ 8 ∷ 12 ∷ []) × (indent_of (ascii (codes "    fooooooooo")) 8 ≡ 4) }
    ensures indent_over_half { indent_of (ascii (codes "    fooooooooo")) 7 ≡ 0 }
    ensures blanks_alone { cuts_of (ascii (codes "        ")) 5 ≡ [] }
    ensures leading_blanks { cuts_of (ascii (codes "        x")) 5 ≡ 5 ∷ [] }
    ensures trailing_cellless { cuts_of (ascii (codes "ab") ++ cellless (226 ∷ 128 ∷ 139 ∷ []) ∷ ascii (codes "c")) 2 ≡ 3 ∷ [] }
    ensures width_off { cuts_of (ascii (codes "hello world")) 0 ≡ [] }
{}
