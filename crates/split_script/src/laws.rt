//! What holds of every line, and lines that are known.
ghost use Rattle.std.specs.Prelude.{◌≡◌, ◌<◌, ◌∷◌, ◌++◌, [], ℕ, List, true, false, codes};
ghost use Rattle.edit_script.specs.Verdict.{is_blank};
ghost use Rattle.split_script.specs.Lines.{Astray, Own, Redo, Skipped, Undo, prefixed, split_line};

/// What is written for a view is read as that, and nothing else is. It does nothing.
pub fn view_laws()
    ensures own { (views view : ℕ) (bytes : List ℕ) → view < views → is_blank bytes ≡ false →
        split_line views (prefixed view bytes) ≡ Own view bytes }
    ensures blank { (views view : ℕ) (bytes : List ℕ) → view < views → is_blank bytes ≡ true →
        split_line views (prefixed view bytes) ≡ Skipped }
    ensures only { (views view : ℕ) (line bytes : List ℕ) →
        split_line views line ≡ Own view bytes →
        (view < views) × (line ≡ prefixed view bytes) × (is_blank bytes ≡ false) }
{}

/// Lines of a script for two views. It does nothing.
pub fn worked_lines()
    ensures first_view { split_line 2 (codes "0 {}") ≡ Own 0 (codes "{}") }
    ensures last_view { split_line 2 (codes "1 {}") ≡ Own 1 (codes "{}") }
    ensures past_the_last { split_line 2 (codes "2 {}") ≡ Astray }
    ensures second_space_is_the_line { split_line 2 (codes "1  {}") ≡ Own 1 (codes " {}") }
    ensures no_space { split_line 2 (codes "1{}") ≡ Astray }
    ensures tab_for_space { split_line 2 (49 ∷ 9 ∷ codes "{}") ≡ Astray }
    ensures space_before { split_line 2 (codes " 1 {}") ≡ Astray }
    ensures digit_alone { split_line 2 (codes "1") ≡ Astray }
    ensures blank_for_a_view { split_line 2 (codes "1 ") ≡ Skipped }
    ensures blank_behind_a_digit { split_line 2 (49 ∷ 32 ∷ 9 ∷ 13 ∷ []) ≡ Skipped }
    ensures empty { split_line 2 [] ≡ Skipped }
    ensures blank { split_line 2 (32 ∷ 9 ∷ 13 ∷ []) ≡ Skipped }
    ensures undo { split_line 2 (codes "undo") ≡ Undo }
    ensures redo { split_line 2 (codes "redo") ≡ Redo }
    ensures space_behind_undo { split_line 2 (codes "undo ") ≡ Astray }
    ensures return_behind_redo { split_line 2 (codes "redo" ++ 13 ∷ []) ≡ Astray }
    ensures undo_of_a_view { split_line 2 (codes "1 undo") ≡ Own 1 (codes "undo") }
    ensures header { split_line 2 (codes "{\"script\":2}") ≡ Astray }
    ensures no_view { split_line 0 (codes "0 {}") ≡ Astray }
{}
