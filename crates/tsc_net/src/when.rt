//! The steps at which a fault is present.
ghost use Rattle.std.specs.Prelude.{◌≡◌, ◌<◌, ◌≤◌, [], ◌∷◌, ◌++◌, All, OnOk, OnErr};
ghost use Rattle.tsc_net.specs.When.{has_step};

use std::alloc::{AllocError, Global};
use std::marker::Model;

/// The steps from `first` to `last`, both included.
#[derive(Clone, Copy, Debug, PartialEq, Eq)]
pub struct Span {
    /// The first step at which the fault is present; steps count from 0.
    pub first: u64,
    /// The last one.
    pub last: u64,
}

/// A set of steps, as spans in rising order.
#[derive(Debug, Drop)]
pub struct When {
    spans: Vec<Span>,
}

impl Model for When {
    ghost use Rattle.std.specs.Prelude.{List};
    ghost use Rattle.tsc_net.specs.declared.when.Span.{Span};

    ghost Value = { List Span };

    ghost view = { λ when. when.spans.items };
}

impl When {
    /// No step at all. It takes no memory.
    pub fn new(alloc: Global) -> When
        ensures none { result ≡ [] }
    {
        When {
            spans: Vec::new(alloc),
        }
    }

    /// Adds the steps of `span`, which begins above the last step of the spans before.
    ///
    /// # Errors
    ///
    /// Want of memory.
    pub fn push(&mut self, span: Span) -> Result<(), AllocError>
        requires ordered { span.first ≤ span.last }
        requires above { All (λ other. other.last < span.first) self.old }
        ensures ok { OnOk result (self.new ≡ self.old ++ span ∷ []) }
        ensures err { OnErr result (self.new ≡ self.old) }
    {
        self.spans.push(span)?;
        Ok(())
    }

    /// Whether a span holds the step. It takes no memory.
    pub fn has(&self, step: u64) -> bool
        ensures held { result ≡ has_step self.now step }
    {
        self.spans
            .iter()
            .any(|span| span.first <= step && step <= span.last)
    }
}
