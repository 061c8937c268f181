//! The laws on diagrams: equal functions are one row, and the rows are the different cofactors of what was asked for.
ghost use Rattle.std.specs.Prelude.{◌≡◌, ℕ, ◌<◌, List, [], ◌∷◌, length};
ghost use Rattle.diagrams.specs.declared.decision.Decision.{Decision};
ghost use Rattle.diagrams.specs.Decisions.{value, IsDiagram};
ghost use Rattle.diagrams.specs.Cofactors.{Function, Same, cofactor_count};
ghost use Rattle.diagrams.specs.Building.{DiagramState, constants, no_input, any_input, AreMade, AreShort, HaveRows};

/// Rows of a diagram with one function are one row.
pub fn equal_functions_are_one_row()
    ensures one { (inputs : ℕ) (rows : List Decision) (j k : ℕ) → IsDiagram inputs rows → j < length rows → k < length rows → Same inputs (value rows j) (value rows k) → j ≡ k }
{}

/// Where each of some functions has a row, and rows were added to the constants for their sake, there are exactly as many
/// rows as these functions and the constants have different cofactors.
pub fn rows_are_the_cofactors()
    ensures count { (old new : DiagramState) (fs : List Function) → old.rows ≡ constants old.inputs → AreMade old new fs → HaveRows new fs → length new.rows ≡ cofactor_count new.inputs (no_input ∷ any_input ∷ fs) }
{}

/// Where rows are short for some functions, these and the constants have more different cofactors than there can be rows.
pub fn short_of_rows()
    ensures more { (old new : DiagramState) (fs : List Function) → old.rows ≡ constants old.inputs → AreMade old new fs → AreShort new fs → new.room < cofactor_count new.inputs (no_input ∷ any_input ∷ fs) }
{}
