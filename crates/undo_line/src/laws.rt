//! What holds of the inverse of every batch.
ghost use Rattle.std.specs.Prelude.{◌≡◌, ◌≤◌, ◌<◌, ℕ, List, true, length, map, filter, slice_range, None};
ghost use Rattle.cell_units.specs.declared.limits.TheConstants.{TEXT_LIMIT};
ghost use Rattle.cell_units.specs.Record.{Record};
ghost use Rattle.cell_units.specs.Text.{clean};
ghost use Rattle.display_sheet.specs.declared.change.Splice.{Splice};
ghost use Rattle.display_sheet.specs.Changes.{are_ranges, batch, edit_refusal, is_operation, operated_all};
ghost use Rattle.undo_line.specs.Inverse.{IsBatchOn, Leads, inverse, text_after};

/// Laws of every batch on a text. After it its inverse fits, and gives the text back. It does nothing.
pub fn inverse_laws()
    ensures ranges { (text : List ℕ) (splices : List Splice) → IsBatchOn text splices →
        are_ranges (text_after text splices) 0 (inverse text splices) ≡ true }
    ensures text { (text : List ℕ) (splices : List Splice) → IsBatchOn text splices →
        text_after (text_after text splices) (inverse text splices) ≡ text }
    ensures leads { (text : List ℕ) (splices : List Splice) → IsBatchOn text splices →
        length text ≤ TEXT_LIMIT → Leads (text_after text splices) (inverse text splices) text }

    // What an entry is of the operation that it takes back.
    ensures holds { (text : List ℕ) (splices : List Splice) → IsBatchOn text splices →
        map (λ s. slice_range (text_after text splices) s.start s.end) (inverse text splices)
        ≡ map (λ s. clean s.text) (filter is_operation splices) }
    ensures gives { (text : List ℕ) (splices : List Splice) →
        map (λ s. s.text) (inverse text splices)
        ≡ map (λ s. slice_range text s.start s.end) (filter is_operation splices) }
    ensures count { (text : List ℕ) (splices : List Splice) →
        length (inverse text splices) ≡ length (batch splices) }
    ensures operations { (text : List ℕ) (splices : List Splice) → IsBatchOn text splices →
        filter is_operation (inverse text splices) ≡ inverse text splices }

    // A batch that leads from a text to another does so in each record of that text.
    ensures accepted { (r : Record) (splices : List Splice) (other : List ℕ) →
        Leads r.text splices other → edit_refusal r splices ≡ None }
    ensures done { (r : Record) (splices : List Splice) (other : List ℕ) →
        Leads r.text splices other → (operated_all (batch splices) r).text ≡ other }
{}
