//! A list of clauses, as they are written: each literal once, and none with a literal and its negation.
ghost use Rattle.std.specs.Prelude.{◌≡◌, [], ◌∷◌, ◌++◌, nat_eq, ◌&&◌, not, IfOk, OnOk, map};
ghost use Rattle.std.specs.List.{list_any};
ghost use Rattle.refutations.specs.Clauses.{same};
ghost use Rattle.exact_question.specs.Rows.{clashes, is_literal, literal, once};
ghost use Rattle.question_text.specs.Gates.{kept, turned, with_new};

use refutations::Literal;
use std::alloc::{AllocError, Global};
use std::marker::Model;
use tsc_io::Items;

/// A list of literals.
pub type Literals = Items<Literal>;

/// A list of clauses.
#[derive(Drop)]
pub struct Clauses {
    alloc: Global,
    list: Items<Literals>,
}

impl Model for Clauses {
    ghost use Rattle.std.specs.Prelude.{List};
    ghost use Rattle.refutations.specs.declared.literal.Literal.{Literal};

    ghost Value = { List (List Literal) };

    ghost view = { λ c. c.list };
}

impl Clauses {
    /// No clause yet. It takes no memory.
    pub fn new(alloc: Global) -> Clauses
        ensures empty { result ≡ [] }
    {
        Clauses {
            alloc,
            list: Items::new(alloc),
        }
    }

    /// The clauses.
    pub fn as_slice(&self) -> &[Literals]
        ensures whole { result.now ≡ self.now }
    {
        self.list.as_slice()
    }

    /// The allocator.
    pub(crate) fn alloc(&self) -> Global {
        self.alloc
    }

    /// Adds what is written of a clause.
    ///
    /// # Errors
    ///
    /// Want of memory.
    #[tactic(auto, using(crate::proofs::Once::kept_none, crate::proofs::Once::kept_one))]
    pub(crate) fn push(&mut self, clause: &[Literal]) -> Result<(), AllocError>
        ensures ok { OnOk result (self.new ≡ self.old ++ kept clause.now) }
    {
        if !clash(clause) {
            self.list.push(each_once(self.alloc, clause)?)?;
        }
        Ok(())
    }
}

/// The literal that is true where this one isn't.
pub(crate) fn turned(l: Literal) -> Literal
    ensures turned { result ≡ turned l }
{
    Literal {
        variable: l.variable,
        wants: !l.wants,
    }
}

/// Whether the literal stands among some others.
fn is_among(l: Literal, others: &[Literal]) -> bool
    ensures among { result ≡ list_any (λ m. is_literal l m) others.now }
{
    others
        .iter()
        .any(|m| l.variable == m.variable && l.wants == m.wants)
}

/// Whether a literal and its negation stand among the literals.
fn clash(literals: &[Literal]) -> bool
    ensures clash { result ≡ clashes literals.now }
{
    literals.iter().any(|l| is_among(turned(*l), literals))
}

/// Adds the literal, where it isn't there.
fn push_new(list: &mut Literals, it: Literal) -> Result<(), AllocError>
    ensures added { OnOk result (list.new ≡ with_new list.old it) }
{
    if is_among(it, list.as_slice()) {
        Ok(())
    } else {
        list.push(it)
    }
}

/// The literals, each where it stands first.
#[tactic(auto, using(crate::proofs::Once::once_next))]
fn each_once(alloc: Global, literals: &[Literal]) -> Result<Literals, AllocError>
    ensures once { IfOk result (λ list. list ≡ once literals.now) }
{
    let mut made = Items::new(alloc);
    for it in literals {
        push_new(&mut made, *it)?;
    }
    Ok(made)
}
