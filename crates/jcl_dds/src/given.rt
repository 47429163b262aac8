//! Which keywords and words of a DD exclude one another. (GC28-6704, "DD statement")
ghost use Rattle.std.specs.Prelude.{◌≡◌, ◌||◌, codes};
ghost use Rattle.std.specs.Option.{option_copied};
ghost use Rattle.jcl_cards.specs.Keywords.{is_given};
ghost use Rattle.jcl_dds.specs.DdCards.{is_read_word, is_word};
ghost use Rattle.jcl_dds.specs.Dds.{any_given, given_in, is_coded, is_data_word, is_excluded};

use crate::dd_value::coding;
use jcl_cards::coded::Coded;
use operand_core::operand::Keyword;

/// What stands on a DD.
#[derive(Clone, Copy)]
pub(crate) struct Given {
    /// `*`, DATA or DUMMY.
    pub(crate) word: bool,
    /// `*` or DATA.
    pub(crate) cards: bool,
    /// DSNAME or DISP.
    pub(crate) set: bool,
    /// A keyword other than SYSOUT, DDNAME and DCB.
    pub(crate) any: bool,
    /// SYSOUT.
    pub(crate) sysout: bool,
    /// DDNAME.
    pub(crate) dd_name: bool,
}

/// Whether what stands there excludes one another.
pub(crate) fn is_excluded(given: Given) -> bool
    ensures { result ≡ is_excluded given }
{
    given.word && (given.sysout || given.dd_name)
        || given.sysout && given.dd_name
        || (given.cards || given.dd_name) && given.any
        || given.sysout && given.set
}

/// Whether a value is given.
pub(crate) fn is_given<T>(coded: &Coded<T>) -> bool
    ensures { result ≡ is_given coded.now }
{
    match coded {
        Coded::NotGiven | Coded::Nullified => false,
        Coded::Value(_) => true,
    }
}

fn is_coded(keywords: &[Keyword<'_>], key: &[u8]) -> bool
    ensures { result ≡ is_coded key.now keywords.now }
{
    is_given(&coding(keywords, key))
}

/// Whether a keyword other than SYSOUT, DDNAME and DCB is given.
fn any_given(keywords: &[Keyword<'_>]) -> bool
    ensures { result ≡ any_given keywords.now }
{
    is_coded(keywords, b"DSNAME")
        || is_coded(keywords, b"DISP")
        || is_coded(keywords, b"UNIT")
        || is_coded(keywords, b"VOLUME")
        || is_coded(keywords, b"SPACE")
        || is_coded(keywords, b"LABEL")
        || is_coded(keywords, b"UCS")
        || is_coded(keywords, b"FCB")
        || is_coded(keywords, b"OUTLIM")
}

/// Whether a text is `*`, DATA or DUMMY.
pub(crate) fn is_word(text: &[u8]) -> bool
    ensures { result ≡ is_word text.now }
{
    match text {
        b"*" | b"DATA" | b"DUMMY" => true,
        _ => false,
    }
}

/// Whether a positional part is `*`, DATA or DUMMY.
pub(crate) fn is_read_word(part: Option<&[u8]>) -> bool
    ensures { result ≡ is_read_word (option_copied part.entry) }
{
    match part {
        None => false,
        Some(text) => is_word(text),
    }
}

/// Whether a positional part is `*` or DATA, behind which data stands.
pub fn is_data_word(part: Option<&[u8]>) -> bool
    ensures { result ≡ is_data_word (option_copied part.entry) }
{
    match part {
        None => false,
        Some(text) => is_word(text) && text != b"DUMMY".as_slice(),
    }
}

/// What stands on a DD, by its first positional part and its keywords.
fn given_in(first: Option<&[u8]>, keywords: &[Keyword<'_>]) -> Given
    ensures { result ≡ given_in (option_copied first.entry) keywords.now }
{
    Given {
        word: is_read_word(first),
        cards: is_data_word(first),
        set: is_coded(keywords, b"DSNAME") || is_coded(keywords, b"DISP"),
        any: any_given(keywords),
        sysout: is_coded(keywords, b"SYSOUT"),
        dd_name: is_coded(keywords, b"DDNAME"),
    }
}

/// Whether a word, SYSOUT or DDNAME stands on a DD.
fn may_exclude(first: Option<&[u8]>, keywords: &[Keyword<'_>]) -> bool
    ensures { result ≡ (is_read_word (option_copied first.entry) || is_coded (codes "SYSOUT") keywords.now || is_coded (codes "DDNAME") keywords.now) }
{
    is_read_word(first) || is_coded(keywords, b"SYSOUT") || is_coded(keywords, b"DDNAME")
}

/// Whether what stands on a DD excludes one another. Without a word, SYSOUT or DDNAME nothing does.
pub(crate) fn excludes_in(first: Option<&[u8]>, keywords: &[Keyword<'_>]) -> bool
    ensures { result ≡ is_excluded (given_in (option_copied first.entry) keywords.now) }
{
    if !may_exclude(first, keywords) {
        return false;
    }
    is_excluded(given_in(first, keywords))
}
