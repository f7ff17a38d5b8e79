//! Lines whose rows, marks and runs are known. These functions do nothing: each one's contract is the example.
ghost use Rattle.std.specs.Prelude.{◌≡◌, ◌∷◌, [], codes, length, replicate, slice_index_or, Some, None};
ghost use Rattle.cell_line.specs.declared.lines.Run.{Run};
ghost use Rattle.cell_units.specs.declared.place.Shift.{Shift};
ghost use Rattle.cell_units.specs.Rows.{all_rows, line_rows, rows_before};
ghost use Rattle.wrap_map.specs.Items.{items_of};
ghost use Rattle.wrap_map.specs.Landing.{marks_landed};
ghost use Rattle.wrap_map.specs.Standing.{Standing, all_at, marks_after, shown_rows, standing_after};
ghost use Rattle.cell_line.specs.MarkRuns.{runs_from};
ghost use Rattle.cell_line.specs.Waiting.{IsNext, IsNextIfAny};
ghost use Rattle.wrap_map.specs.Worked.{ten, three_hundred};

/// Ten lines of two words at width 5: all ten are the next run, and landed they have two rows each and none waits.
pub fn ten_lines()
    ensures run { IsNext (replicate 10 0) 5 [] (record { first = 0; count = 10 }) }
    ensures landed { let run : Run = record { first = 0; count = 10 } in
        marks_landed [] run 5 (replicate 10 0) ≡ replicate 10 5 }
    ensures rows { length (all_rows (shown_rows (all_at 5 ten))) ≡ 20 }
    ensures marks { runs_from 0 (replicate 10 5) ≡ record { first = 0; last = 9; width = 5 } ∷ [] }
    ensures no_run { IsNextIfAny (replicate 10 5) 5 [] None }
    ensures items { (items_of (all_at 0 ten) ≡ 1) × (items_of (all_at 5 ten) ≡ 10) }
{}

/// The same when the sixth line is replaced by one: its two rows become one, and it leaves the run of marks.
pub fn ten_lines_of_which_one_is_replaced()
    ensures marks { (s : Shift) → s.start ≡ 5 → s.end ≡ 6 → s.count ≡ 1 →
        runs_from 0 (marks_after (Some s) (replicate 10 5)) ≡
        record { first = 0; last = 4; width = 5 } ∷
        (record { first = 6; last = 9; width = 5 } ∷ []) }
    ensures rows { let rows = shown_rows (all_at 5 ten) in
        (rows_before rows 5 ≡ 10) × (rows_before rows 6 ≡ 12) }
    ensures row { slice_index_or (line_rows (shown_rows (all_at 5 ten)) 0) 1 [] ≡ codes "bbb" }
    ensures items { (s : Shift) → s.start ≡ 5 → s.end ≡ 6 → s.count ≡ 1 →
        items_of (standing_after (all_at 5 ten) ten (Some s)) ≡ 10 }
{}

/// Lines without cuts are one item, and three where one of them has another mark.
pub fn lines_of_one_letter()
    ensures landed { items_of (all_at 40 three_hundred) ≡ 1 }
    ensures replaced { (s : Shift) → s.start ≡ 150 → s.end ≡ 151 → s.count ≡ 1 →
        items_of (standing_after (all_at 40 three_hundred) three_hundred (Some s)) ≡ 3 }
{}
