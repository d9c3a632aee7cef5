//! The accepted chains that name one of the URIs.

ghost use Rattle.std.specs.Prelude.{◌≡◌, IfOk, map};
ghost use Rattle.rpki_walk.specs.Chained.{AreNamingChains, IsChains, has_chained};
ghost use Rattle.rpki_rules.specs.Views.{path_of};

use crate::reach::keys::{Wanted, names_any};
use crate::reach::naming::Naming;
use crate::{Cause, Chain, Path, Visitor, sort_once, walk_all};
use bytes::Bytes;
use std::alloc::{AllocError, Global};
use std::rc::Rc;

// The URIs, and the chains that were found to name one of them.
#[derive(Drop)]
struct Namer<'a> {
    wanted: &'a Wanted<'a>,
    paths: Vec<Rc<Path>>,
}

impl<'a, S: Naming> Visitor<S> for Namer<'a> {
    ghost has = { has_chained };

    ghost wants = { IsChains };

    ghost uris = { λ n. n.wanted.now };

    fn visit(
        &mut self,
        alloc: Global,
        repository: &mut S,
        chain: &Chain<'_>,
        ca: &S::Authority,
    ) -> Result<(), AllocError> {
        let keys = repository.named_keys(alloc, ca)?;
        if names_any(self.wanted, &keys) {
            self.paths.push(chain.path.clone()?)?;
        }
        Ok(())
    }

    fn refuse(&mut self, _name: &Bytes, _why: Cause) -> Result<(), AllocError> {
        Ok(())
    }

    fn show(
        &mut self,
        _repository: &S,
        _path: &Rc<Path>,
        _object: &Bytes,
        _payload: S::Payload,
    ) -> Result<(), AllocError> {
        Ok(())
    }
}

/// The accepted chains whose last certificate names one of the URIs, each once, by locator and then by their lookup keys. URIs
/// are compared by lookup key, so a text that is no URI names nothing.
pub fn naming_chains<S: Naming>(
    alloc: Global,
    repository: &mut S,
    uris: &[Bytes],
) -> Result<Vec<Rc<Path>>, AllocError>
    ensures chains { IfOk result (λ paths. AreNamingChains uris.now (S.world repository.old)
        (map (λ p. path_of p.value) paths.items)) }
    ensures same { S.world repository.new ≡ S.world repository.old }
    ensures lender { S.lender repository.new ≡ S.lender repository.old }
{
    let wanted = Wanted::new(alloc, uris)?;
    let mut found = Namer {
        wanted: &wanted,
        paths: Vec::new(alloc),
    };
    walk_all(alloc, repository, &mut found)?;
    let mut paths = found.paths;
    sort_once(&mut paths)?;
    Ok(paths)
}
