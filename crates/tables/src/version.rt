// A version as the program has it: with a flag beside the value, as `value`'s has it.
ghost use Rattle.std.specs.Prelude.{◌≡◌, true, false, IfOk};
ghost use Rattle.value.specs.Said.{said};
ghost use Rattle.value.specs.Versions.{version};

use std::alloc::{AllocError, Global};
use value::Version as Said;

#[derive(PartialEq, Eq, Drop)]
pub struct Version {
    pub key: Vec<u8>,
    pub moment: u64,
    pub gone: bool,
    pub value: Vec<u8>,
}

impl Version {
    // The version that is said, in memory of its own.
    pub fn owned(heap: Global, said: Said<'_>) -> Result<Version, AllocError>
        ensures key { IfOk result (λ v. v.key.items ≡ said.entry.key.now) }
        ensures moment { IfOk result (λ v. v.moment ≡ said.entry.moment) }
        ensures gone { IfOk result (λ v. v.gone ≡ said.entry.gone) }
        ensures value { IfOk result (λ v. v.value.items ≡ said.entry.value.now) }
    {
        Ok(Version {
            key: Vec::from_slice(heap, said.key)?,
            moment: said.moment,
            gone: said.gone,
            value: Vec::from_slice(heap, said.value)?,
        })
    }

    pub fn new(heap: Global, key: &[u8], moment: u64, value: &[u8]) -> Result<Version, AllocError>
        ensures gone { IfOk result (λ v. v.gone ≡ false) }
        ensures key { IfOk result (λ v. v.key.items ≡ key.now) }
        ensures value { IfOk result (λ v. v.value.items ≡ value.now) }
    {
        Version::owned(
            heap,
            Said {
                key,
                moment,
                gone: false,
                value,
            },
        )
    }

    pub fn erasure(heap: Global, key: &[u8], moment: u64) -> Result<Version, AllocError>
        ensures gone { IfOk result (λ v. v.gone ≡ true) }
        ensures key { IfOk result (λ v. v.key.items ≡ key.now) }
    {
        Version::owned(
            heap,
            Said {
                key,
                moment,
                gone: true,
                value: b"",
            },
        )
    }

    pub fn said(&self) -> Said<'_>
        ensures { said result ≡ version self.now.key.items self.now.moment self.now.gone self.now.value.items }
    {
        Said {
            key: &self.key,
            moment: self.moment,
            gone: self.gone,
            value: &self.value,
        }
    }

    pub fn weight(&self) -> u64 {
        (self.key.len() as u64)
            .saturating_add(self.value.len() as u64)
            .saturating_add(64)
    }
}
