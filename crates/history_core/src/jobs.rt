//! The names of jobs.
ghost use Rattle.std.specs.Prelude.{◌≡◌, ◌<◌, ◌≤◌, ℕ, OnOk, length};
ghost use Rattle.history_core.specs.Jobs.{name_at};

use jname_core::name8::Name8;
use std::alloc::{AllocError, Global};
use std::marker::Model;

/// The name of each job that was read, by the job's number.
#[derive(Drop)]
pub struct Jobs {
    names: Vec<Option<Name8>>,
}

impl Model for Jobs {
    ghost use Rattle.std.specs.Prelude.{ℕ, List, Option};

    ghost Value = { List (Option (List ℕ)) };

    ghost view = { λ j. j.names.items };
}

impl Jobs {
    pub fn empty(alloc: Global) -> Jobs {
        Jobs {
            names: Vec::new(alloc),
        }
    }

    /// The name of a job. It is empty where the job was not read.
    pub fn name_of(&self, job: u16) -> &[u8]
        ensures { result.now ≡ name_at self.now job }
    {
        match self.names.get(usize::from(job)) {
            None => b"",
            Some(name) => match name {
                None => b"",
                Some(name) => name.as_slice(),
            },
        }
    }

    /// A job of this name was read. Numbers rise; those between were rejected.
    #[tactic(auto, using(crate::proofs::NamesRead::read_last, crate::proofs::NamesRead::read_before))]
    pub fn add(&mut self, job: u16, name: Name8) -> Result<(), AllocError>
        ensures own { OnOk result (length self.old ≤ job → name_at self.new job ≡ name) }
        ensures others { OnOk result ((k : ℕ) → k < length self.old → name_at self.new k ≡ name_at self.old k) }
    {
        for _number in self.names.len()..usize::from(job) {
            self.names.push(None)?;
        }
        self.names.push(Some(name))?;
        Ok(())
    }
}
