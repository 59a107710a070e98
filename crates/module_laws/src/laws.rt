//! Laws of the faults of texts.
ghost use Rattle.module_laws.specs.Laws.{LeastIsFirst, NoFaultIsPrintable};

/// States that the first fault of the list has the least place, and at one place is the first in the order of the reasons.
pub fn least_is_first()
    ensures { LeastIsFirst }
{}

/// States that a text without a fault is the print of its module, which is printable.
pub fn no_fault_is_printable()
    ensures { NoFaultIsPrintable }
{}
