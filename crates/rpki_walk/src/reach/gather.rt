//! The sets of the authorities that name one of the URIs.

ghost use Rattle.rpki_walk.specs.Gathered.{has_gathered, IsReaches};

use crate::reach::keys::{Wanted, names_any};
use crate::reach::naming::Naming;
use crate::{Cause, Chain, Path, Visitor};
use bytes::Bytes;
use resources::set::ResourceSet;
use std::alloc::{AllocError, Global};
use std::rc::Rc;

/// The URIs, and what the authorities hold that were found to name one of them.
#[derive(Drop)]
pub(crate) struct Gatherer<'a> {
    pub(crate) wanted: &'a Wanted<'a>,
    pub(crate) sets: Vec<ResourceSet>,
}

impl<'a, S: Naming> Visitor<S> for Gatherer<'a> {
    ghost has = { has_gathered };

    ghost wants = { IsReaches };

    ghost uris = { λ g. g.wanted.now };

    fn visit(
        &mut self,
        alloc: Global,
        repository: &mut S,
        _chain: &Chain<'_>,
        ca: &S::Authority,
    ) -> Result<(), AllocError> {
        let keys = repository.named_keys(alloc, ca)?;
        if names_any(self.wanted, &keys) {
            self.sets.push(repository.held(ca)?)?;
        }
        Ok(())
    }

    fn refuse(&mut self, _name: &Bytes, _why: Cause) -> Result<(), AllocError> {
        Ok(())
    }

    fn show(
        &mut self,
        _repository: &S,
        _path: &Rc<Path>,
        _object: &Bytes,
        _payload: S::Payload,
    ) -> Result<(), AllocError> {
        Ok(())
    }
}
