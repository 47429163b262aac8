//! Letters and digits.
ghost use Rattle.std.specs.Prelude.{◌≡◌};
ghost use Rattle.jname_core.specs.Characters.{is_digit, is_job_class, is_letter, is_letter_or_digit};

/// A to Z.
pub fn is_letter(c: u8) -> bool
    ensures { result ≡ is_letter c }
{
    b'A' <= c && c <= b'Z'
}

/// 0 to 9.
pub fn is_digit(c: u8) -> bool
    ensures { result ≡ is_digit c }
{
    b'0' <= c && c <= b'9'
}

pub fn is_letter_or_digit(c: u8) -> bool
    ensures { result ≡ is_letter_or_digit c }
{
    is_letter(c) || is_digit(c)
}

/// Whether it is a class of jobs: A to O. (CLASS parameter)
pub fn is_job_class(c: u8) -> bool
    ensures { result ≡ is_job_class c }
{
    b'A' <= c && c <= b'O'
}
