//! Laws of predictors.
ghost use Rattle.std.specs.Prelude.{◌≡◌, [], ◌∷◌, ◌++◌, codes};
ghost use Rattle.parity_code.specs.Predictors.{with_predictors, check_texts};
ghost use Rattle.parity_code.specs.WorkedPredictor.{worked_source, worked_groups, worked_node, worked_parts, worked_copy, worked_check};

/// A law: the predictor of the conjunction `y` of two inputs is its copy `t0_0` and the check `t0_1`, the copy's negation.
pub fn worked_predictor()
    ensures nodes { (with_predictors worked_source worked_groups worked_parts).named.nodes ≡ worked_node ∷ (worked_copy ∷ (worked_check ∷ [])) }
    ensures names { (with_predictors worked_source worked_groups worked_parts).names ≡ worked_parts.names ++ codes "t0_0" ∷ (codes "t0_1" ∷ []) }
    ensures checks { check_texts worked_source worked_groups worked_parts ≡ codes "t0_1" ∷ [] }
{}
