//! An operand's characters: apostrophes, parentheses and commas.
ghost use Rattle.std.specs.Prelude.{◌≡◌, ◌≤◌, ◌<◌, length, take_while, false};
ghost use Rattle.card_core.specs.Fields.{quoted_after};
ghost use Rattle.operand_core.specs.Calm.{is_mark, is_plain};
ghost use Rattle.operand_core.specs.Operands.{depth_after, ends_part, closes_nothing, is_balanced, is_closed};

/// Whether an apostrophe is open behind a character.
pub fn quoted_after(quoted: bool, c: u8) -> bool
    ensures { result ≡ quoted_after quoted c }
{
    if c == b'\'' { !quoted } else { quoted }
}

/// How many parentheses are open behind a character, where so many were open before it.
pub(crate) fn depth_after(quoted: bool, depth: usize, c: u8) -> usize
    requires { depth < 18446744073709551615 }
    ensures value { result ≡ depth_after quoted depth c }
{
    if quoted {
        depth
    } else {
        match c {
            b'(' => depth + 1,
            b')' => depth.saturating_sub(1),
            _ => depth,
        }
    }
}

/// Whether a character is a comma outside apostrophes and parentheses.
pub(crate) fn ends_part(quoted: bool, depth: usize, c: u8) -> bool
    ensures { result ≡ ends_part quoted depth c }
{
    !quoted && depth == 0 && c == b','
}

fn closes_nothing(quoted: bool, depth: usize, c: u8) -> bool
    ensures { result ≡ closes_nothing quoted depth c }
{
    !quoted && depth == 0 && c == b')'
}

fn is_mark(c: u8) -> bool
    ensures { result ≡ is_mark c }
{
    c == b'(' || c == b')' || c == b'\''
}

fn is_plain(c: u8) -> bool
    ensures { result ≡ is_plain c }
{
    !(is_mark(c) || c == b',')
}

/// How many characters stand before the first comma, parenthesis or apostrophe.
pub(crate) fn plain_len(text: &[u8]) -> usize
    ensures count { result ≡ length (take_while is_plain text.now) }
    ensures bound { result ≤ length text.now }
{
    text.iter().take_while(|c| is_plain(**c)).count()
}

/// Whether each parenthesis outside apostrophes has its other.
pub(crate) fn is_balanced(text: &[u8]) -> bool
    ensures { result ≡ is_balanced text.now }
{
    let mut quoted = false;
    let mut depth = 0;
    for c in text {
        if closes_nothing(quoted, depth, *c) {
            return false;
        }
        depth = depth_after(quoted, depth, *c);
        quoted = quoted_after(quoted, *c);
    }
    depth == 0
}

/// Whether the apostrophes close.
pub(crate) fn is_closed(text: &[u8]) -> bool
    ensures { result ≡ is_closed text.now }
{
    let mut open = false;
    for c in text {
        open = quoted_after(open, *c);
    }
    !open
}
