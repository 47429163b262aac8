//! Names qualified by a period.
ghost use Rattle.std.specs.Prelude.{◌≡◌, ◌≤◌, length, take_while};
ghost use Rattle.operand_core.specs.Qualified.{head_of, is_no_period, is_qualified};

/// How many characters stand before the first period.
pub fn head_len(key: &[u8]) -> usize
    ensures count { result ≡ length (take_while is_no_period key.now) }
    ensures bound { result ≤ length key.now }
{
    key.iter().take_while(|c| **c != b'.').count()
}

/// The characters before the first period.
pub fn head_of(key: &[u8]) -> &[u8]
    ensures { result.now ≡ head_of key.now }
{
    let (head, _) = key.split_at(head_len(key));
    head
}

/// Whether a period stands in a name.
pub fn is_qualified(key: &[u8]) -> bool
    ensures { result ≡ is_qualified key.now }
{
    key.iter().any(|c| *c == b'.')
}
