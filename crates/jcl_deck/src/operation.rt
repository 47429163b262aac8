//! Operations of statements.
ghost use Rattle.std.specs.Prelude.{◌≡◌};
ghost use Rattle.jcl_deck.specs.Decks.{operation_of};

/// What a statement is by its operation.
#[derive(Clone, Copy, PartialEq, Eq)]
pub enum Operation {
    IsJob,
    IsExec,
    IsDd,
    IsProc,
    IsPend,
    IsOther,
}

/// What a statement with this operation is.
pub fn operation_of(text: &[u8]) -> Operation
    ensures { result ≡ operation_of text.now }
{
    if text == b"JOB".as_slice() {
        Operation::IsJob
    } else if text == b"EXEC".as_slice() {
        Operation::IsExec
    } else if text == b"DD".as_slice() {
        Operation::IsDd
    } else if text == b"PROC".as_slice() {
        Operation::IsProc
    } else if text == b"PEND".as_slice() {
        Operation::IsPend
    } else {
        Operation::IsOther
    }
}
