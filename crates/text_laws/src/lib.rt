//! Laws of printable characters in what the machine writes. They have no code: a law is a function that does nothing, and its contract is the law.
#![tactic(auto)]

ghost use Rattle.text_laws.specs.TextLaws.{TextsStayPrintable};

use print_laws::{act_is_printable, agendas_are_printable, writable_is_printable};

/// Each event leaves a printable machine printable, and its lines are.
pub fn texts_stay_printable()
    ensures { TextsStayPrintable }
{
    writable_is_printable();
    agendas_are_printable();
    act_is_printable();
}
