//! What the keys of a job's DDs mean, each found without going through them all.
ghost use Rattle.std.specs.Prelude.{◌≡◌, ◌++◌, ◌∷◌, [], OnErr, OnOk};
ghost use Rattle.jcl_meaning.specs.Resolutions.{meaning_at};

use crate::in_order::{OfDd, keeps_order, said_of};
use crate::state::{KeyMeaning, Resolution};
use jcl_plan::fault::Fault;
use plain::listed::Listed;
use std::alloc::{AllocError, Global};
use std::marker::Model;

impl OfDd for KeyMeaning {
    ghost step_of = { λ m. m.step };

    ghost dd_of = { λ m. m.dd };

    fn spot(&self) -> (usize, usize) {
        (self.step, self.dd)
    }
}

/// A list of meanings. They are added in the order of steps and DDs; where they are not, one is found by going through them.
#[derive(Drop)]
pub struct Meanings {
    list: Listed<KeyMeaning>,
    in_order: bool,
}

impl Model for Meanings {
    ghost use Rattle.std.specs.Prelude.{◌≡◌, List, true};
    ghost use Rattle.jcl_meaning.specs.declared.state.KeyMeaning.{KeyMeaning};
    ghost use Rattle.jcl_meaning.specs.InOrder.{AreInOrder};

    ghost Value = { List KeyMeaning };

    ghost view = { λ m. m.list };

    ghost invariant = { λ m. m.in_order ≡ true → AreInOrder (λ x. x.step) (λ x. x.dd) m.list };
}

impl Meanings {
    /// No meaning.
    pub fn empty(alloc: Global) -> Meanings
        ensures { result ≡ [] }
    {
        Meanings {
            list: Listed::empty(alloc),
            in_order: true,
        }
    }

    /// Adds one at the end. An `Err` changes nothing.
    pub fn push(&mut self, meaning: KeyMeaning) -> Result<(), AllocError>
        ensures ok { OnOk result (self.new ≡ self.old ++ meaning ∷ []) }
        ensures err { OnErr result (self.new ≡ self.old) }
    {
        let keeps = self.in_order && keeps_order(self.list.as_slice(), &meaning);
        self.list.push(meaning)?;
        self.in_order = keeps;
        Ok(())
    }

    pub fn as_slice(&self) -> &[KeyMeaning]
        ensures { result.now ≡ self.now }
    {
        self.list.as_slice()
    }

    /// What the key of a DD means; of two the first counts.
    pub fn at(&self, step: usize, dd: usize) -> Resolution
        ensures { result ≡ meaning_at self.now step dd }
    {
        match said_of(self.list.as_slice(), self.in_order, step, dd) {
            Some(meaning) => meaning.means,
            None => Resolution::Fails(Fault::F5),
        }
    }
}
