//! The word that says at which steps a fault is present.
ghost use Rattle.std.specs.Prelude.{◌≡◌, ◌<◌, ◌≤◌, ◌==◌, [], ◌∷◌, true, length, position, IfOk, IfSome};
ghost use Rattle.std.specs.List.{slice_split};
ghost use Rattle.commands.specs.WhenWords.{is_above, item_span, last_step, next_span, rising_spans, span, span_cut, span_to, spans_of, when_of};

use std::alloc::{AllocError, Global};
use tsc_net::{Span, When};
use tsc_text::number;

/// The most commas of a word: one fewer than its items.
const MOST_COMMAS: usize = 63;

/// The steps that a word names: for a number all steps from it on; else those of 1 to 64 items parted by `,`. An item is `a` for one step,
/// `a-b` for a span, or, as the last, `a-` for all steps from a on. Each item is above the steps of the one before.
pub fn when_of(alloc: Global, word: &[u8]) -> Result<Option<When>, AllocError>
    ensures when { IfOk result (λ when. when ≡ when_of word.now) }
{
    match number(word) {
        Some(first) => Ok(Some(all_from(alloc, first)?)),
        None => spans_of(alloc, word),
    }
}

/// All steps from this one on.
fn all_from(alloc: Global, first: u64) -> Result<When, AllocError>
    ensures when { IfOk result (λ when. when ≡ span first last_step ∷ []) }
{
    let mut when = When::new(alloc);
    when.push(Span {
        first,
        last: u64::MAX,
    })?;
    Ok(when)
}

/// The spans of the items of a word, if it has at most 64 and all are in rising order.
fn spans_of(alloc: Global, word: &[u8]) -> Result<Option<When>, AllocError>
    ensures when { IfOk result (λ when. when ≡ spans_of word.now) }
{
    if word.iter().filter(|byte| **byte == b',').count() > MOST_COMMAS {
        return Ok(None);
    }
    rising_spans(alloc, word)
}

/// The spans of the items of a word, if all are in rising order.
fn rising_spans(alloc: Global, word: &[u8]) -> Result<Option<When>, AllocError>
    ensures when { IfOk result (λ when. when ≡ rising_spans None (slice_split (λ b. b == 44) word.now)) }
{
    let mut when = When::new(alloc);
    let mut last = None;
    for item in word.split(|byte| *byte == b',') {
        let Some(span) = next_span(last, item) else {
            return Ok(None);
        };
        when.push(span)?;
        last = Some(span.last);
    }
    Ok(Some(when))
}

/// The span of an item after spans with this last step, if it begins above that.
fn next_span(last: Option<u64>, item: &[u8]) -> Option<Span>
    ensures span { result ≡ next_span last item.now }
    ensures ordered { IfSome result (λ span. span.first ≤ span.last) }
    ensures above { IfSome result (λ span. is_above last span ≡ true) }
{
    let span = item_span(item)?;
    if is_above(last, span) {
        Some(span)
    } else {
        None
    }
}

/// Whether the span begins above the last step, if there is one.
fn is_above(last: Option<u64>, span: Span) -> bool
    ensures above { result ≡ is_above last span }
{
    match last {
        Some(last) => last < span.first,
        None => true,
    }
}

/// The span of an item `a`, `a-b` or `a-`.
fn item_span(item: &[u8]) -> Option<Span>
    ensures span { result ≡ item_span item.now }
    ensures ordered { IfSome result (λ span. span.first ≤ span.last) }
{
    match dash_of(item) {
        Some(at) => span_from(item, at),
        None => one_step(item),
    }
}

/// Where the first `-` of an item stands.
fn dash_of(item: &[u8]) -> Option<usize>
    ensures place { result ≡ position (λ b. b == 45) item.now }
    ensures within { IfSome result (λ at. at < length item.now) }
{
    item.iter().position(|byte| *byte == b'-')
}

/// The span of an item `a`.
fn one_step(item: &[u8]) -> Option<Span>
    ensures span { result ≡ span_cut None item.now }
    ensures ordered { IfSome result (λ span. span.first ≤ span.last) }
{
    let step = number(item)?;
    Some(Span {
        first: step,
        last: step,
    })
}

/// The span of an item `a-b` or `a-`, whose first `-` stands at a place.
fn span_from(item: &[u8], at: usize) -> Option<Span>
    requires within { at < length item.now }
    ensures span { result ≡ span_cut (Some at) item.now }
    ensures ordered { IfSome result (λ span. span.first ≤ span.last) }
{
    let first = number(&item[..at])?;
    span_to(first, &item[at + 1..])
}

/// The span from a step to the one that the rest of an item names; without a rest to the last step of all.
fn span_to(first: u64, rest: &[u8]) -> Option<Span>
    ensures span { result ≡ span_to first rest.now }
    ensures ordered { IfSome result (λ span. span.first ≤ span.last) }
{
    if rest.is_empty() {
        return Some(Span {
            first,
            last: u64::MAX,
        });
    }
    let last = number(rest)?;
    if first <= last {
        Some(Span { first, last })
    } else {
        None
    }
}
