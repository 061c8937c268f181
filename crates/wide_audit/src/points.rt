//! The search for the first wrong point, over all functions as rows of a diagram.
ghost use Rattle.std.specs.Prelude.{◌≡◌, ◌≤◌, length, IfOk, OnOk, IfErr};
ghost use Rattle.diagrams.specs.Building.{constants};
ghost use Rattle.wide_diagrams.specs.Wide.{NeedAtMost};
ghost use Rattle.wide_audit.specs.Points.{IsPointAnswer, IsPointError};

use crate::asked::Asked;
use crate::verdict::WideError;
use crate::wrong::{WrongPoint, first_wrong};
use diagrams::{BuildError, Diagrams};
use std::alloc::Global;
use wide_diagrams::wide_rows;

/// The first input at which the word or an output of a netlist without latches is wrong, if there is one.
pub(crate) fn wrong_point(alloc: Global, asked: &Asked) -> Result<Option<WrongPoint>, WideError>
    requires latches { length asked.now.net.now.circuit.latches ≡ 0 }
    requires inputs { asked.now.net.now.circuit.inputs ≤ 1024 }
    requires same_inputs { asked.now.source.now.circuit.inputs ≡ asked.now.net.now.circuit.inputs }
    requires outputs { length asked.now.source.now.circuit.outputs ≡ asked.now.plan.now.outputs }
    ensures point { IfOk result (IsPointAnswer asked.now.source.now.circuit asked.now.net.now.circuit asked.now.plan.now) }
    ensures few { OnOk result (NeedAtMost asked.now.rows asked.now.source.now.circuit asked.now.net.now.circuit asked.now.plan.now) }
    ensures spent { IfErr result (IsPointError asked.now.rows asked.now.source.now.circuit asked.now.net.now.circuit asked.now.plan.now) }
{
    match Diagrams::new(alloc, asked.net.inputs(), asked.rows) {
        Ok(diagrams) => {
            let mut open = diagrams;
            let found = search(alloc, &mut open, asked);
            open.close();
            found
        }
        Err(e) => Err(WideError::Memory(e)),
    }
}

/// The same over diagrams that hold the two constants alone.
fn search(
    alloc: Global,
    diagrams: &mut Diagrams,
    asked: &Asked,
) -> Result<Option<WrongPoint>, WideError>
    requires new { diagrams.old.rows ≡ constants diagrams.old.inputs }
    requires room { diagrams.old.room ≡ asked.now.rows }
    requires inputs { diagrams.old.inputs ≡ asked.now.net.now.circuit.inputs }
    requires latches { length asked.now.net.now.circuit.latches ≡ 0 }
    requires same_inputs { asked.now.source.now.circuit.inputs ≡ asked.now.net.now.circuit.inputs }
    requires outputs { length asked.now.source.now.circuit.outputs ≡ asked.now.plan.now.outputs }
    ensures point { IfOk result (IsPointAnswer asked.now.source.now.circuit asked.now.net.now.circuit asked.now.plan.now) }
    ensures few { OnOk result (NeedAtMost asked.now.rows asked.now.source.now.circuit asked.now.net.now.circuit asked.now.plan.now) }
    ensures spent { IfErr result (IsPointError asked.now.rows asked.now.source.now.circuit asked.now.net.now.circuit asked.now.plan.now) }
{
    let Asked {
        source,
        net,
        plan,
        rows,
    } = *asked;
    // What the netlists and the plan keep is known from here on.
    let _source = source.order();
    let _order = net.order();
    let _states = plan.states.len();
    match wide_rows(alloc, diagrams, source, net, plan) {
        Ok(found) => match first_wrong(alloc, diagrams, &found) {
            Ok(point) => Ok(point),
            Err(e) => Err(WideError::Memory(e)),
        },
        Err(BuildError::Spent) => Err(WideError::Spent { rows }),
        Err(BuildError::Memory(e)) => Err(WideError::Memory(e)),
    }
}
