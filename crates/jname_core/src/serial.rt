//! The serials of volumes.
ghost use Rattle.std.specs.Prelude.{◌≡◌, MatchOption};
ghost use Rattle.std.specs.List.{list_any};
ghost use Rattle.std.specs.Str.{bytes_eq};
ghost use Rattle.jname_core.specs.Faults.{is_no_serial};
ghost use Rattle.jname_core.specs.Grammar.{IsSerial};

use crate::name8::has_no_component_character;
use plain::short::Short;
use std::marker::Model;

/// A volume's serial: one to six letters, digits, `#`, `@`, `$` or hyphens. (VOLUME parameter)
#[derive(Clone, Copy, PartialEq, Eq, PartialOrd, Ord)]
pub struct Serial {
    text: Short<6>,
}

impl Model for Serial {
    ghost use Rattle.std.specs.Prelude.{ℕ, List};
    ghost use Rattle.jname_core.specs.Grammar.{IsSerial};

    ghost Value = { List ℕ };

    ghost view = { λ s. s.text };

    ghost invariant = { λ s. IsSerial s.text };

    ghost inverse = { λ t. record { text = t } };
}

fn is_no_serial(text: &[u8]) -> bool
    ensures { result ≡ is_no_serial text.now }
{
    text.is_empty() || text.len() > 6 || has_no_component_character(text)
}

impl Serial {
    /// The serial that the text is, or none.
    pub fn read(text: &[u8]) -> Option<Serial>
        ensures read { MatchOption result (IsSerial text.now → ⊥) (λ s. (s ≡ text.now) × IsSerial text.now) }
    {
        if is_no_serial(text) {
            None
        } else {
            Some(Serial::of(text))
        }
    }

    /// The serial that the text is known to be, with no look at it.
    pub fn of(text: &[u8]) -> Serial
        requires { IsSerial text.now }
        ensures { result ≡ text.now }
    {
        Serial {
            text: Short::new(text),
        }
    }

    pub fn as_slice(&self) -> &[u8]
        ensures value { result.now ≡ self.now }
        ensures serial { IsSerial self.now }
    {
        self.text.as_slice()
    }
}

/// Whether a serial is one of these.
pub fn is_among(serials: &[Serial], serial: Serial) -> bool
    ensures { result ≡ list_any (bytes_eq serial) serials.now }
{
    serials.iter().any(|s| *s == serial)
}
