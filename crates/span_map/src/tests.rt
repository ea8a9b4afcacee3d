// Lines and columns as the text shows them, and places at either span of a row.

use crate::{SpanRow, line_col, place};
use cash_base::{Cause, MachineCause, Span};
use std::test::Fail;

#[test]
fn lines_and_columns(rt: HostRuntime) -> Result<(), Fail> {
    for (at, found) in [
        (0, (1, 1)),
        (2, (1, 3)),
        (3, (2, 1)),
        (4, (3, 1)),
        (5, (3, 2)),
        (6, (3, 2)),
    ] {
        assert_eq!(rt; line_col("ab\n\nc", at), found);
    }
    Ok(())
}

#[test]
fn places_of_failures(rt: HostRuntime) -> Result<(), Fail> {
    let checking = Span { from: 31, to: 47 };
    let first = Span { from: 39, to: 40 };
    let second = Span { from: 39, to: 45 };
    let rows = [
        SpanRow {
            doing: first,
            checking,
        },
        SpanRow {
            doing: second,
            checking,
        },
    ];
    for (at, cause, found) in [
        (0, MachineCause::Shared(Cause::NotANumber), Some(first)),
        (1, MachineCause::Shared(Cause::NotANumber), Some(second)),
        (1, MachineCause::StackLimit, Some(second)),
        (1, MachineCause::Shared(Cause::CheckFailed), Some(checking)),
        (0, MachineCause::EndFalse, Some(checking)),
        (2, MachineCause::EndFalse, None),
    ] {
        assert_eq!(rt; place(&rows, at, cause), found);
    }
    Ok(())
}
