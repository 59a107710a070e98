//! Laws. Each is proved for all modules.
ghost use Rattle.module_unique.specs.Alike.{PrintsDiffer};
ghost use Rattle.module_unique.specs.Faultless.{PrintableHasNoFault};
ghost use Rattle.module_unique.specs.ToldExactly.{ToldExactly};

use module_grammar::texts_are_read;
use module_laws::no_fault_is_printable;
use module_read::one_answer;

/// States that different printable modules have different prints.
pub fn prints_differ()
    ensures { PrintsDiffer }
{
    texts_are_read();
}

/// States that the print of a printable module whose texts are UTF-8 is a text without a fault, and that it states the module.
pub fn printable_has_no_fault()
    ensures { PrintableHasNoFault }
{
    texts_are_read();
    no_fault_is_printable();
}

/// States that bytes are read back to a module if and only if they are its print, it is printable, and its texts are UTF-8.
pub fn told_exactly()
    ensures { ToldExactly }
{
    printable_has_no_fault();
    one_answer();
}
