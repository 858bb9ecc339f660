// The rules of the steps on the parts of the acting device; each gives an effect, or a refusal.
#![tactic(auto)]

ghost use Rattle.std.specs.Prelude.{◌≡◌};
ghost use Rattle.rules.specs.Rules.{lose, again, stop, ruled, ruled_if, effect_of};

use crate::advances::advance_rule;
use crate::asks::ask_rule;
use crate::deliveries::deliver_rule;
use crate::refusing::{stopped, too_few_slots};
use devices::{Accepted, Effect, Here, Message, Sending, Step};
use refusals::Refusal;

mod advances;
mod asks;
mod deliveries;
mod refusing;
mod rounds;
mod table;

pub use table::{About, Named, about_step};

#[tactic(auto, unfolding(crate::specs::Rules::lose))]
fn lose_rule(m: Message, h: Here) -> Result<Effect, Refusal>
    ensures { result ≡ lose m h }
{
    if m.is_empty() {
        return Err(Refusal::EmptySlot);
    }
    Ok(Effect {
        frees: true,
        ..h.unchanged(Ok(Accepted::Done))
    })
}

#[tactic(auto, unfolding(crate::specs::Rules::again))]
fn repeat_rule(m: Message, h: Here) -> Result<Effect, Refusal>
    ensures { result ≡ again m h }
{
    if m.is_empty() {
        return Err(Refusal::EmptySlot);
    }
    too_few_slots(1, h)?;
    Ok(Effect {
        sending: Sending {
            message: m,
            to: devices::only_device(m.addressee()),
        },
        ..h.unchanged(Ok(Accepted::Done))
    })
}

#[tactic(auto, unfolding(crate::specs::Rules::stop))]
fn stop_rule(h: Here) -> Result<Effect, Refusal>
    ensures { result ≡ stop h }
{
    stopped(h)?;
    Ok(Effect {
        stops: true,
        ..h.unchanged(Ok(Accepted::Done))
    })
}

#[tactic(auto, unfolding(crate::specs::Rules::ruled))]
fn rule(step: Step, m: Message, h: Here) -> Result<Effect, Refusal>
    ensures { result ≡ ruled step m h }
{
    match step {
        Step::Ask {
            tablet,
            notes,
            pair,
        } => ask_rule(tablet, notes, pair, h),
        Step::Advance(tablet) => advance_rule(tablet, h),
        Step::Deliver(_) => deliver_rule(m, h),
        Step::Lose(_) => lose_rule(m, h),
        Step::Repeat(_) => repeat_rule(m, h),
        Step::Stop(_) => stop_rule(h),
    }
}

// The rule of a step, tried where the state is one and the step names a number in range.
fn rule_if(proper: bool, step: Step, m: Message, h: Here) -> Result<Effect, Refusal>
    ensures { result ≡ ruled_if proper step m h }
{
    if !proper {
        return Err(Refusal::NoState);
    }
    if !about_step(step).names.in_range() {
        return Err(Refusal::OutOfRange);
    }
    rule(step, m, h)
}

// What a step does, where m is what the slot that it names holds and proper says that the state is one.
#[tactic(auto, unfolding(crate::specs::Rules::effect_of))]
pub fn effect_of(proper: bool, step: Step, m: Message, h: Here) -> Effect
    ensures { result ≡ effect_of proper step m h }
{
    match rule_if(proper, step, m, h) {
        Ok(effect) => effect,
        Err(refusal) => h.refused(refusal),
    }
}
