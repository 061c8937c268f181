//! A checker of refutations.
ghost use Rattle.std.specs.Prelude.{◌≡◌, ◌+◌, ◌<◌, ◌++◌, ◌∷◌, [], List, IfOk, OnOk, OnErr, IsTrue, is_some, nat_lt};
ghost use Rattle.std.specs.List.{list_all};
ghost use Rattle.refutations.specs.declared.literal.Literal.{Literal as L};
ghost use Rattle.refutations.specs.Clauses.{HaveNoModel};
ghost use Rattle.refutations.specs.Steps.{clause_at};
ghost use Rattle.refutations.specs.Store.{without};
ghost use Rattle.refutations.specs.Checking.{AreWithin, empty_checker, with_clause, step, answer_of, IsSound};

use crate::answer::Answer;
use crate::clauses::Clauses;
use crate::following::followed;
use crate::known::Known;
use crate::literal::Literal;
use std::alloc::{AllocError, Global};
use std::marker::Model;

/// A checker of refutations. It holds the clauses alive, which are those of a formula and those that were added since.
/// Contracts see the number of variables, the greatest number until now, the clauses alive, and whether the empty clause came.
#[derive(Drop)]
pub struct Checker {
    clauses: Clauses,
    known: Known,
    refuted: bool,
}

impl Model for Checker {
    ghost use Rattle.std.specs.Prelude.{length};
    ghost use Rattle.refutations.specs.Checking.{CheckerState, IsReady};

    ghost Value = { CheckerState };

    ghost view = { λ c. record { variables = length c.known; last = c.clauses.last; clauses = c.clauses.clauses; refuted = c.refuted } };

    ghost invariant = { λ c. IsReady c.known c.clauses.clauses };
}

impl Checker {
    /// A checker over so many variables, without a clause.
    ///
    /// # Errors
    ///
    /// Want of memory.
    #[tactic(auto, using(crate::proofs::Readiness::ready_rules, crate::proofs::Readiness::sound_rules))]
    pub fn new(alloc: Global, variables: usize) -> Result<Checker, AllocError>
        ensures empty { IfOk result (λ checker. checker ≡ empty_checker variables) }
        ensures sound { IfOk result (λ checker. IsSound [] checker) }
    {
        let known = Known::new(alloc, variables)?;
        Ok(Checker {
            clauses: Clauses::new(alloc),
            known,
            refuted: false,
        })
    }

    /// How many variables there are.
    pub fn variables(&self) -> usize
        ensures variables { result ≡ self.now.variables }
    {
        self.known.len()
    }

    /// The greatest number until now, also of a clause that isn't alive any more.
    pub fn last(&self) -> u32
        ensures last { result ≡ self.now.last }
    {
        self.clauses.last()
    }

    /// Gives the next clause of the formula. It has the number after the greatest until now, from 1 on.
    ///
    /// # Errors
    ///
    /// Want of memory.
    #[tactic(auto, using(crate::proofs::Readiness::sound_rules))]
    pub fn give(&mut self, literals: &[Literal]) -> Result<(), AllocError>
        requires within { AreWithin self.old.variables literals.now }
        requires room { self.old.last + 1 < 4294967296 }
        ensures given { OnOk result (self.new ≡ with_clause self.old (self.old.last + 1) literals.now) }
        ensures kept { OnErr result (self.new ≡ self.old) }
        ensures sound { OnOk result ((formula : List (List L)) → IsSound formula self.old → IsSound (formula ++ literals.now ∷ []) self.new) }
    {
        let number = self.last() + 1;
        self.include(number, literals)
    }

    /// Adds a clause where its hints are followed: the clauses that they name lead, one after another, to one that is false
    /// where the added clause is. A hint whose clause is true already is passed over, and what comes after the false clause
    /// isn't looked at.
    ///
    /// # Errors
    ///
    /// Want of memory.
    #[tactic(auto, using(crate::proofs::Readiness::sound_rules))]
    pub fn add(
        &mut self,
        number: u32,
        literals: &[Literal],
        hints: &[u32],
    ) -> Result<Answer, AllocError>
        ensures answer { IfOk result (λ answer. answer ≡ answer_of self.old number literals.now hints.now) }
        ensures added { IfOk result (λ answer. answer ≡ Answer.Followed → self.new ≡ with_clause self.old number literals.now) }
        ensures refused { IfOk result (λ answer. (answer ≡ Answer.Followed → ⊥) → self.new ≡ self.old) }
        ensures kept { OnErr result (self.new ≡ self.old) }
        ensures sound { (formula : List (List L)) → IsSound formula self.old → IsSound formula self.new }
    {
        if number <= self.last() {
            return Ok(Answer::OldNumber);
        }
        if !are_within(literals, self.variables()) {
            return Ok(Answer::NoVariable);
        }
        match self.judge(literals, hints) {
            Err(e) => Err(e),
            Ok(Answer::Followed) => match self.include(number, literals) {
                Ok(()) => Ok(Answer::Followed),
                Err(e) => Err(e),
            },
            Ok(answer) => Ok(answer),
        }
    }

    /// Where the hints of a clause lead. What is learnt on the way is forgotten.
    #[tactic(auto, using(crate::proofs::Readiness::ready_rules))]
    fn judge(&mut self, literals: &[Literal], hints: &[u32]) -> Result<Answer, AllocError>
        requires within { AreWithin self.old.variables literals.now }
        ensures answer { IfOk result (λ answer. answer ≡ step self.old literals.now hints.now) }
        ensures same { self.new ≡ self.old }
    {
        let answer = followed(&self.clauses, &mut self.known, literals, hints);
        self.known.forget();
        answer
    }

    /// Holds one more clause.
    #[tactic(auto, using(crate::proofs::Readiness::ready_rules))]
    fn include(&mut self, number: u32, literals: &[Literal]) -> Result<(), AllocError>
        requires within { AreWithin self.old.variables literals.now }
        requires above { self.old.last < number }
        ensures ok { OnOk result (self.new ≡ with_clause self.old number literals.now) }
        ensures err { OnErr result (self.new ≡ self.old) }
    {
        self.clauses.push(number, literals)?;
        self.refuted = self.refuted || literals.is_empty();
        Ok(())
    }

    /// Deletes the clause with this number, and answers whether it was alive.
    #[tactic(auto, using(crate::proofs::Readiness::ready_rules, crate::proofs::Readiness::sound_rules))]
    pub fn delete(&mut self, number: u32) -> bool
        ensures was { result ≡ is_some (clause_at self.old.clauses number) }
        ensures deleted { self.new ≡ record self.old { clauses = without self.old.clauses number } }
        ensures sound { (formula : List (List L)) → IsSound formula self.old → IsSound formula self.new }
    {
        self.clauses.remove(number)
    }

    /// Whether the empty clause was given or added. Then the formula has no model.
    pub fn is_refuted(&self) -> bool
        ensures refuted { result ≡ self.now.refuted }
        ensures no_model { IsTrue result → (formula : List (List L)) → IsSound formula self.now → HaveNoModel formula }
    {
        self.refuted
    }
}

/// Whether each literal's variable is one of so many.
fn are_within(literals: &[Literal], variables: usize) -> bool
    ensures within { result ≡ list_all (λ l. nat_lt l.variable variables) literals.now }
{
    literals
        .iter()
        .all(|literal| (literal.variable as usize) < variables)
}
