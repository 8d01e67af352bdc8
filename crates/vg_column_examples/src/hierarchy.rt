// A hierarchy and arrays.
ghost use Rattle.std.specs.Prelude.{◌≡◌, ◌∷◌, [], ℕ, map};
ghost use Rattle.vg_column_examples.specs.Hierarchy.{kept, kinds, made_of, tables, worked};
ghost use Rattle.vg_numbers.specs.Numbers.{count, first, number};
ghost use Rattle.vg_placement.specs.Columns.{placed_columns, static_bytes, table_bytes};

/// The numbers of its cells, the intervals of its classes, its columns and tables, and their sums. The body is empty: its contract is a
/// computation.
pub fn a_hierarchy_is_placed()
    ensures numbers { map (number tables kinds kept) (0 ∷ 1 ∷ 2 ∷ 3 ∷ 4 ∷ 5 ∷ 6 ∷ 7 ∷ 8 ∷ 9 ∷ 10 ∷ [])
        ≡ 1 ∷ 5 ∷ 1 ∷ 3 ∷ 0 ∷ 4 ∷ 6 ∷ 2 ∷ 2 ∷ 1 ∷ 1 ∷ [] }
    ensures firsts { map (first tables kinds kept) (0 ∷ 1 ∷ 2 ∷ 3 ∷ 4 ∷ 5 ∷ []) ≡ 1 ∷ 3 ∷ 4 ∷ 5 ∷ 1 ∷ 6 ∷ [] }
    ensures counts { map (count tables kinds kept) (0 ∷ 1 ∷ 2 ∷ 3 ∷ 4 ∷ 5 ∷ []) ≡ 6 ∷ 3 ∷ 2 ∷ 1 ∷ 0 ∷ 1 ∷ [] }
    ensures columns { placed_columns tables made_of kinds ≡ worked }
    ensures static_bytes { static_bytes tables made_of kinds ≡ 46 }
    ensures table_bytes { table_bytes tables made_of kinds ≡ 62 }
{}
