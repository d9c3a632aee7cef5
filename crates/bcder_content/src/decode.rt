//! Sources that are read from their beginning.
ghost use Rattle.std.specs.Prelude.{IfErr};
ghost use Rattle.bcder_content.specs.bcder_tree.declared.mode.Mode.{Mode as ModeValue};
ghost use Rattle.bcder_content.specs.Memory.{OnMemory, InErr};
ghost use Rattle.bcder_content.specs.ClosureReads.{Decoded, fresh};

use crate::bcder_source::{ContentError, DecodeError, IntoSource, LimitedSource, Mode, Source};
use crate::constructed::Constructed;
use crate::ending::Ending;
use crate::primitive::Primitive;

impl<S: Source> Constructed<S> {
    /// What a closure reads from the beginning of a source, in that mode. Octets after what it reads
    /// stay unread.
    pub fn decode<
        I: IntoSource<Source = S>,
        T: Drop,
        F: FnOnce(&mut Constructed<S>) -> Result<T, DecodeError<S::Error>>,
    >(source: I, mode: Mode, op: F) -> Result<T, DecodeError<S::Error>>
        requires { F.IsAlwaysCallable op }
        ensures decoded { Decoded S.rest F.FnOnce op (fresh mode (I.octets source)) result }
        ensures memory { IfErr result
            (λ e. OnMemory e (InErr S.rest F.FnOnce op (fresh mode (I.octets source)) e)) }
    {
        let source = LimitedSource::new(source.into_source());
        let start = source.pos();
        let mut content = Constructed {
            octets: Primitive {
                source,
                mode,
                failed: false,
                start,
            },
            end: Ending::Unbounded,
            constructed: true,
        };
        let value = match op(&mut content) {
            Ok(value) => value,
            Err(error) => return Err(error),
        };
        if content.octets.failed {
            return Err(content.content_err(ContentError::from_static("a read was refused before")));
        }
        Ok(value)
    }
}

/// Modes in which sources are read.
pub trait Decode {
    ghost mode: { Self → ModeValue };

    /// What a closure reads from the beginning of a source, in this mode. Octets after what it reads
    /// stay unread.
    fn decode<
        I: IntoSource,
        T: Drop,
        F: FnOnce(
            &mut Constructed<I::Source>,
        ) -> Result<T, DecodeError<<I::Source as Source>::Error>>,
    >(self, source: I, op: F) -> Result<T, DecodeError<<I::Source as Source>::Error>>
        requires { F.IsAlwaysCallable op }
        ensures decoded { Decoded I.Source.rest F.FnOnce op (fresh (mode self) (I.octets source))
            result }
        ensures memory { IfErr result (λ e. OnMemory e
            (InErr I.Source.rest F.FnOnce op (fresh (mode self) (I.octets source)) e)) };
}

impl Decode for Mode {
    ghost mode = { λ m. m };

    fn decode<
        I: IntoSource,
        T: Drop,
        F: FnOnce(
            &mut Constructed<I::Source>,
        ) -> Result<T, DecodeError<<I::Source as Source>::Error>>,
    >(self, source: I, op: F) -> Result<T, DecodeError<<I::Source as Source>::Error>> {
        Constructed::decode(source, self, op)
    }
}
