//! What is known of variables, with a trail that undoes it.
ghost use Rattle.std.specs.Prelude.{◌≡◌, ◌<◌, length, replicate, slice_index_or, slice_set, Some, None, IfOk, OnOk, OnErr};
ghost use Rattle.refutations.specs.Steps.{known_of};

use crate::literal::Literal;
use std::alloc::{AllocError, Global};
use std::marker::Model;

/// What is known of variables: a bit, or nothing. What was learnt is undone in the time that it took to learn it.
#[derive(Drop)]
pub(crate) struct Known {
    values: Vec<Option<bool>>,
    trail: Vec<u32>,
}

impl Model for Known {
    ghost use Rattle.std.specs.Prelude.{List, Option, Bool};
    ghost use Rattle.refutations.specs.Known.{IsTrailed};

    ghost Value = { List (Option Bool) };

    ghost view = { λ known. known.values.items };

    ghost invariant = { λ known. IsTrailed 0 known.values.items known.trail.items };
}

impl Known {
    /// Nothing is known of so many variables.
    ///
    /// # Errors
    ///
    /// Want of memory.
    pub fn new(alloc: Global, variables: usize) -> Result<Known, AllocError>
        ensures nothing { IfOk result (λ known. known ≡ replicate variables None) }
    {
        Ok(Known {
            values: vec![in alloc; None; variables]?,
            trail: Vec::new(alloc),
        })
    }

    /// How many variables there are.
    pub fn len(&self) -> usize
        ensures len { result ≡ length self.now }
    {
        self.values.len()
    }

    /// What is known of a literal.
    pub fn of(&self, literal: Literal) -> Option<bool>
        requires within { literal.variable < length self.now }
        ensures known { result ≡ known_of self.now literal }
    {
        match self.values[literal.variable as usize] {
            None => None,
            Some(bit) => Some(bit == literal.wants),
        }
    }

    /// Learns the bit of a variable.
    ///
    /// # Errors
    ///
    /// Want of memory. Then nothing is learnt.
    pub fn learn(&mut self, variable: u32, bit: bool) -> Result<(), AllocError>
        requires within { variable < length self.old }
        ensures ok { OnOk result (self.new ≡ slice_set self.old variable (Some bit)) }
        ensures err { OnErr result (self.new ≡ self.old) }
    {
        self.trail.push(variable)?;
        self.values[variable as usize] = Some(bit);
        Ok(())
    }

    /// Forgets all that was learnt.
    #[tactic(auto, using(crate::proofs::Trails::undone_one, crate::proofs::Trails::all_undone, crate::proofs::Trails::trailed_blank))]
    pub fn forget(&mut self)
        ensures nothing { self.new ≡ replicate (length self.old) None }
    {
        for variable in &self.trail {
            self.values[*variable as usize] = None;
        }
        self.trail.clear();
    }
}
