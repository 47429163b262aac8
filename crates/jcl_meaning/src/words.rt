//! What the words of a plan mean on a set. (DISP parameter)
ghost use Rattle.std.specs.Prelude.{◌≡◌};
ghost use Rattle.jcl_meaning.specs.Plans.{as_word, conditional_meaning, is_pass, normal_meaning, omitted, or_omitted, passes, word_done};

use crate::names::is_temporary;
use jcl_plan::plan::{ConditionalWord, DdKind, Word};

/// A temporary set is not kept or catalogued: it is passed.
pub fn normal_meaning(temporary: bool, normal: Option<Word>) -> Option<Word>
    ensures { result ≡ normal_meaning temporary normal }
{
    match normal {
        Some(Word::Keep) if temporary => Some(Word::Pass),
        Some(Word::Catlg) if temporary => Some(Word::Pass),
        normal => normal,
    }
}

fn as_word(word: ConditionalWord) -> Word
    ensures { result ≡ as_word word }
{
    match word {
        ConditionalWord::Delete => Word::Delete,
        ConditionalWord::Keep => Word::Keep,
        ConditionalWord::Catlg => Word::Catlg,
        ConditionalWord::Uncatlg => Word::Uncatlg,
    }
}

/// KEEP and CATLG coded as the conditional word of a temporary set mean DELETE.
pub fn conditional_meaning(temporary: bool, conditional: Option<ConditionalWord>) -> Option<Word>
    ensures { result ≡ conditional_meaning temporary conditional }
{
    match conditional {
        None => None,
        Some(ConditionalWord::Keep) if temporary => Some(Word::Delete),
        Some(ConditionalWord::Catlg) if temporary => Some(Word::Delete),
        Some(word) => Some(as_word(word)),
    }
}

/// The word where none is coded: a set that the job made is deleted, and another kept.
pub fn omitted(made: bool) -> Word
    ensures { result ≡ omitted made }
{
    if made { Word::Delete } else { Word::Keep }
}

fn or_omitted(normal: Option<Word>, made: bool) -> Word
    ensures { result ≡ or_omitted normal made }
{
    match normal {
        None => omitted(made),
        Some(word) => word,
    }
}

/// The word done at the end of a step: after its ABEND the conditional word, if coded.
pub fn word_done(normal: Option<Word>, conditional: Option<Word>, abended: bool, made: bool) -> Word
    ensures { result ≡ word_done normal conditional abended made }
{
    match conditional {
        Some(word) if abended => word,
        _ => or_omitted(normal, made),
    }
}

/// Whether a word passes a set to later steps.
pub fn is_pass(word: Option<Word>) -> bool
    ensures { result ≡ is_pass word }
{
    match word {
        Some(Word::Pass) => true,
        Some(Word::Delete) => false,
        Some(Word::Keep) => false,
        Some(Word::Catlg) => false,
        Some(Word::Uncatlg) => false,
        None => false,
    }
}

/// Whether a DD's normal word is or means PASS.
pub fn passes(kind: &DdKind) -> bool
    ensures { result ≡ passes kind.now }
{
    match kind {
        DdKind::Sysout(_) => false,
        DdKind::Dummy => false,
        DdKind::Cards(_) => false,
        DdKind::Set(p) => is_pass(normal_meaning(is_temporary(&p.key), p.normal)),
    }
}
