//! Refutations of clauses: a checker of LRAT's additions, with hints and without RAT steps, and of its deletions, over values and without texts.
//! Its main type is `Checker`: `give` takes the clauses of a formula, `add` and `delete` follow a refutation, `is_refuted` says whether the empty clause came.
//! It stands on std alone.
//! Its main promise: each clause alive is implied by the formula, so that the formula has no model once the empty clause came; and each refusal has its cause.
//! Its definitions are in `specs/`: Clauses (what clauses say, and what has no model), Steps (what an addition's hints lead to), Checking (what a checker
//! holds, answers and promises), and of the code alone Store (entries and their pool) and Known (what is known, and the trail).
#![tactic(auto)]

mod answer;
mod checker;
mod clauses;
mod following;
mod known;
mod literal;
mod reduction;

pub use answer::Answer;
pub use checker::Checker;
pub use literal::Literal;
