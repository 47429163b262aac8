//! A word that may have been meant.
use crate::forms::forms;
use std::alloc::{AllocError, Global};
use strsim::generic_levenshtein;

/// The longest word that is compared with others.
const LONGEST: usize = 16;

/// The word that is most like another: at most two letters differ, and fewer than it has.
#[derive(Drop)]
struct Nearest {
    letters: Vec<u8>,
    word: Option<&'static str>,
    distance: usize,
}

/// Whether two words have the same letters, as where two of them are exchanged.
fn has_same_letters(word: &[u8], other: &[u8]) -> bool {
    word.len() == other.len()
        && word.iter().all(|c| other.contains(c))
        && other.iter().all(|c| word.contains(c))
}

impl Nearest {
    /// Small letters are taken for capitals.
    fn none(alloc: Global, word: &[u8]) -> Result<Nearest, AllocError> {
        let mut letters = Vec::new(alloc);
        for c in word {
            letters.push(c.to_ascii_uppercase())?;
        }
        let distance = word.len().min(3);
        Ok(Nearest {
            letters,
            word: None,
            distance,
        })
    }

    fn look_at(&mut self, alloc: Global, other: &'static str) -> Result<(), AllocError> {
        let letters = self.letters.as_slice();
        let distance = if letters == other.as_bytes() {
            0
        } else if has_same_letters(letters, other.as_bytes()) {
            1
        } else {
            generic_levenshtein(alloc, letters, other.as_bytes())?
        };
        if distance < self.distance {
            self.word = Some(other);
            self.distance = distance;
        }
        Ok(())
    }
}

/// The word of a statement, or END, that is nearest to a word.
pub(crate) fn nearest_statement(
    alloc: Global,
    word: &[u8],
) -> Result<Option<&'static str>, AllocError> {
    if word.len() > LONGEST {
        return Ok(None);
    }
    let mut nearest = Nearest::none(alloc, word)?;
    nearest.look_at(alloc, "END")?;
    for form in forms() {
        nearest.look_at(alloc, form.word)?;
    }
    Ok(nearest.word)
}

/// A word, if another is nearly that.
pub(crate) fn word_if_near(
    alloc: Global,
    word: &[u8],
    meant: &'static str,
) -> Result<Option<&'static str>, AllocError> {
    if word.len() > LONGEST {
        return Ok(None);
    }
    let mut nearest = Nearest::none(alloc, word)?;
    nearest.look_at(alloc, meant)?;
    Ok(nearest.word)
}
