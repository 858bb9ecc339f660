// The tests that several rules make first: a stopped device, too few free slots, and the last round.
ghost use Rattle.std.specs.Prelude.{◌≡◌, ◌+◌, ltb, Ok, Err};
ghost use Rattle.refusals.specs.declared.Refusal.TheVariants.{Stopped, LastRound, NoRoom};
ghost use Rattle.sets.specs.Choice.{pick};

use devices::Here;
use refusals::Refusal;

pub(crate) fn stopped(h: Here) -> Result<(), Refusal>
    ensures { result ≡ pick h.stopped (Err Stopped) (Ok tt) }
{
    if h.stopped {
        return Err(Refusal::Stopped);
    }
    Ok(())
}

pub(crate) fn too_few_slots(messages: usize, h: Here) -> Result<(), Refusal>
    ensures { result ≡ pick (ltb h.free messages) (Err NoRoom) (Ok tt) }
{
    if h.free < messages {
        return Err(Refusal::NoRoom);
    }
    Ok(())
}

// The round that would begin.
pub(crate) fn next_round(h: Here) -> Result<u16, Refusal>
    ensures { result ≡ pick (ltb 1022 h.tablet.round) (Err LastRound) (Ok (h.tablet.round + 1)) }
{
    if 1022 < h.tablet.round {
        return Err(Refusal::LastRound);
    }
    Ok(h.tablet.round + 1)
}
