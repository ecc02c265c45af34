//! The faults of a text as findings, by its mends.
ghost use Rattle.std.specs.Prelude.{◌≡◌, IfOk};
ghost use Rattle.jsonc_lint.specs.Whole.{TellFaults, TellsMend, equals_last};

use crate::finding::{Finding, FindingKind, Findings};
use jsonc_mends::{Fault, Mend};
use std::alloc::{AllocError, Allocator};

/// The finding that tells the fault of a mend.
pub fn mend_finding<A: Allocator>(mend: &Mend) -> Finding<A>
    ensures { TellsMend mend.now result }
{
    Finding {
        kind: FindingKind::Fault(mend.fault.kind),
        range: mend.fault.range,
        line: mend.at.line,
        column: mend.at.column,
    }
}

// Whether the last fault is this one.
fn is_again(last: Option<Fault>, fault: Fault) -> bool
    ensures { result ≡ equals_last last fault }
{
    match last {
        Some(last) => last == fault,
        None => false,
    }
}

/// The faults of mends, in the order of their changes. A fault that several changes mend, one after the other, is told
/// once.
pub fn mend_findings<A: Allocator + Copy>(
    alloc: A,
    mends: &[Mend],
) -> Result<Findings<A>, AllocError>
    ensures { IfOk result (λ found. TellFaults mends.now found.items) }
{
    let mut found = Vec::new(alloc);
    let mut last = None;
    for mend in mends {
        if !is_again(last, mend.fault) {
            found.push(mend_finding(mend))?;
        }
        last = Some(mend.fault);
    }
    Ok(found)
}
