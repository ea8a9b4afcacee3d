//! What holds of all that a spend file asks for.

ghost use Rattle.std.specs.Prelude.{map, IfOk};
ghost use Rattle.std.specs.List.{AllByRecursion};
ghost use Rattle.cash_base.specs.Element.{IsElement};
ghost use Rattle.cash_base.specs.Number.{IsBytes};
ghost use Rattle.tx_context.specs.Limits.{IsFrame};
ghost use Rattle.tx_context.specs.Table.{IsTable};
ghost use Rattle.spend_json.specs.Given.{spend_parts};
ghost use Rattle.artifact_json.specs.Artifact.{HasFewInputs};
ghost use Rattle.source_commands.specs.Judged.{IsProper};

use artifact_json::Program;
use cash_base::{Element, Memory};
use spend_json::SpendFile;
use std::alloc::Global;
use tx_context::{Frame, Verdicts};
use unlocker::{BuildFault, call_of};

/// The transaction and the table are within their limits, and a call of the program has elements.
#[tactic(auto, using(crate::proofs::Causes::proper, crate::proofs::Causes::no_call))]
pub(crate) fn parts_are_proper(
    alloc: Global,
    program: &Program,
    spend: &SpendFile,
) -> Result<(), Memory>
    requires { HasFewInputs program.now }
    ensures { IfOk result (λ u. IsProper program.now (spend_parts spend.now)) }
{
    is_frame(&spend.frame);
    is_table(&spend.verdicts);
    match call_of(alloc, program, spend) {
        Ok(call) => {
            are_elements(call.ctor.as_slice());
            are_elements(call.args.as_slice());
            Ok(())
        }
        Err(BuildFault::Memory) => Err(Memory),
        Err(_) => Ok(()),
    }
}

fn is_frame(frame: &Frame)
    ensures { IsFrame frame.now }
{
    // Each part of a frame tells that it is one.
    let _version = frame.version();
}

fn is_table(verdicts: &Verdicts)
    ensures { IsTable verdicts.now }
{
    let _rows = verdicts.rows();
}

fn are_elements(elements: &[Element])
    ensures { AllByRecursion IsElement (map (λ e. e.items) elements.now) }
{
    match elements {
        [] => {}
        [element, others @ ..] => {
            is_element(element);
            are_elements(others);
        }
    }
}

fn is_element(element: &Element)
    ensures { IsElement element.now.items }
{
    are_bytes(element.as_slice());
}

fn are_bytes(bytes: &[u8])
    ensures { IsBytes bytes.now }
{}
