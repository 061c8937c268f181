//! The parts that the lines of a section state.
ghost use Rattle.std.specs.Prelude.{◌≡◌, ◌^◌, ◌<◌, IfOk};
ghost use Rattle.tsc_text.specs.TextLine.{word_count};
ghost use Rattle.blif_read.specs.Clean.{AreClean};
ghost use Rattle.blif_read.specs.NamedText.{named_text};

use crate::builder::Builder;
use std::alloc::{AllocError, Global};
use tsc_net::Parts;
use tsc_text::SectionLines;

/// The parts that the lines of a section state, none of which has a fault.
#[tactic(auto, using(crate::proofs::NamedLines::with_last_line))]
pub fn parts_of(alloc: Global, section: &SectionLines) -> Result<Parts, AllocError>
    requires few { word_count section.now < 2 ^ 32 }
    requires clean { AreClean section.now }
    ensures named { IfOk result (λ parts. parts.named ≡ named_text section.now) }
{
    let mut builder = Builder::new(alloc, section.key());
    for place in 0..section.len() {
        let line = section.line(place);
        builder.line(&line, section, place + 1)?;
    }
    Ok(builder.finish())
}
