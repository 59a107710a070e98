//! Laws of the result of reading bytes back.
ghost use Rattle.module_read.specs.Tells.{OneAnswer, SomeAnswer};

use module_grammar::texts_are_read;
use module_laws::{least_is_first, no_fault_is_printable};

/// States that bytes state at most one module, or have at most one first fault, and never both.
pub fn one_answer()
    ensures { OneAnswer }
{
    texts_are_read();
    least_is_first();
}

/// States that bytes in UTF-8 state a module or have a first fault.
pub fn some_answer()
    ensures { SomeAnswer }
{
    texts_are_read();
    least_is_first();
    no_fault_is_printable();
}
