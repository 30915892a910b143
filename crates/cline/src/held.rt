//! A crew taken up from its numbers.
ghost use Rattle.std.specs.Prelude.{◌≡◌};
ghost use Rattle.line.specs.Either.{core_kept};
ghost use Rattle.plain_crew.specs.Crews.{core_of};
ghost use Rattle.cline.specs.Calls.{any_kind, is_draining, is_open, kept_by, take};
ghost use Rattle.cline.specs.declared.answer.Refused.TheVariants.{NeverLaid};

use crate::answer::Refused;
use line::crew::{Core, Crew, DrainingCrew};
use line::either::{EitherCrew, UnfitShape};
use plain_crew::crew::PlainCrew;
use std::marker::PhantomData;

impl From<UnfitShape> for Refused {
    ghost from_gives = { λ _ refused. refused ≡ NeverLaid };

    fn from(_unfit: UnfitShape) -> Refused {
        Refused::NeverLaid
    }
}

/// What the crew keeps that the numbers mean, if its shape is one that a crew can have.
pub(crate) fn kept(plain: &PlainCrew) -> Result<Core, Refused>
    ensures { result ≡ take any_kind (core_of plain.now) }
{
    let core = Core::from(plain);
    if core.shape.is_fit() {
        Ok(core)
    } else {
        Err(Refused::NeverLaid)
    }
}

/// The crew that the numbers mean.
pub(crate) fn any_crew(plain: &PlainCrew) -> Result<EitherCrew, Refused>
    ensures { kept_by core_kept result ≡ take any_kind (core_of plain.now) }
{
    Ok(EitherCrew::try_from(Core::from(plain))?)
}

// Two functions, one for each kind, which build the crew in place: one function over both, or one that takes the crew out of what `kept` or
// `any_crew` answers, copies the crew once more. Tried: it costs each of these calls up to an eighth more.

/// The crew that the numbers mean, if it is open.
pub(crate) fn open_crew(plain: &PlainCrew) -> Result<Crew, Refused>
    ensures { kept_by (λ crew. crew.core) result ≡ take is_open (core_of plain.now) }
{
    let core = Core::from(plain);
    if !core.shape.is_fit() {
        return Err(Refused::NeverLaid);
    }
    if core.draining {
        return Err(Refused::OutOfPlace);
    }
    Ok(Crew {
        core,
        openness: PhantomData,
    })
}

/// The crew that the numbers mean, if it drains.
pub(crate) fn draining_crew(plain: &PlainCrew) -> Result<DrainingCrew, Refused>
    ensures { kept_by (λ crew. crew.core) result ≡ take is_draining (core_of plain.now) }
{
    let core = Core::from(plain);
    if !core.shape.is_fit() {
        return Err(Refused::NeverLaid);
    }
    if !core.draining {
        return Err(Refused::OutOfPlace);
    }
    Ok(Crew {
        core,
        openness: PhantomData,
    })
}
