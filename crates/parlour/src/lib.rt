// One step of a run at a time, and the question whether a box may be unplugged. Every call takes any state and any numbers.
#![tactic(auto)]

ghost use Rattle.std.specs.Prelude.{position, ◌≡◌, ◌<◌, ◌≤◌, ◌^◌};
ghost use Rattle.sets.specs.Choice.{pick};
ghost use Rattle.sets.specs.Sets.{has, union};
ghost use Rattle.devices.specs.declared.Step.{Step};
ghost use Rattle.devices.specs.Effects.{messages_of};
ghost use Rattle.rules.specs.Table.{row};
ghost use Rattle.state.specs.Slots.{empty_slot, is_free, many, laid};
ghost use Rattle.state.specs.State.{proper};
ghost use Rattle.parlour.specs.Steps.{within, slot_of, device_of, taken_if, StepPromise, UnplugPromise};

use books::Config;
use devices::{Here, Message, Outcome, Sending, Step};
use refusals::Refusal;
use rules::Named;
use state::{Run, Slot, Stepped};

// A place below a bound, 0 where there is no such place: what stands there is stored again as it came. Each place has a bound of its own,
// which its contract says, so that no index is tested.
fn place_within(bound: usize, n: usize) -> usize
    requires { 0 < bound }
    ensures { (result ≡ within bound n) × (result < bound) }
{
    if n < bound { n } else { 0 }
}

// The place of the slot that a step names.
fn slot_of(step: Step) -> usize
    ensures { (result ≡ slot_of step) × (result < 128) }
{
    match rules::about_step(step).names {
        Named::Slot(slot) => place_within(128, slot as usize),
        Named::Tablet(_) | Named::Device(_) => 0,
    }
}

// The place of the acting tablet, of the addressee of the slot's message, or of the device to stop.
fn device_of(step: Step, message: Message) -> usize
    ensures { (result ≡ device_of step message) × (result < 24) }
{
    match rules::about_step(step).names {
        Named::Tablet(device) | Named::Device(device) => place_within(24, device as usize),
        Named::Slot(_) => place_within(24, message.addressee() as usize),
    }
}

// How many slots are free, or 0 where their number does not matter to the step: no rule of such a step looks at it.
fn counted(step: Step, slots: &[Slot]) -> usize
    ensures { result ≡ pick (row step).counts (many is_free slots.now) 0 }
{
    if rules::about_step(step).counts {
        slots.iter().filter(|slot| slot.message.is_empty()).count()
    } else {
        0
    }
}

// A slot after a step: freed, or as it was.
fn freed(slot: Slot, frees: bool) -> Slot
    ensures { result ≡ pick frees empty_slot slot }
{
    if frees {
        Slot {
            message: Message::Empty,
        }
    } else {
        slot
    }
}

// The stopped devices after a step. Not by `only_device`, which would test again that the place is below 24.
fn stopped_after(stopped: u32, stops: bool, device: usize) -> u32
    requires { device < 24 }
    ensures { result ≡ pick stops (union stopped (2 ^ device)) stopped }
{
    if stops {
        stopped | (1 << device)
    } else {
        stopped
    }
}

// Whether a state is one.
fn is_proper(run: &Run) -> bool
    ensures { result ≡ proper run.now }
{
    let n = run.listed.count;
    state::proper_desk(run.listed, run.devices, run.tablets)
        & run
            .slots
            .iter()
            .all(|slot| state::proper_message(n, slot.message))
}

// The place of the first free slot.
fn first_free(slots: &[Slot]) -> Option<usize>
    ensures { result ≡ position is_free slots.now }
{
    slots.iter().position(|slot| slot.message.is_empty())
}

// Messages to a set of devices, in order, laid into the lowest free slots in one pass.
fn lay(slots: &mut [Slot; 128], sending: Sending)
    ensures { slots.new ≡ laid (messages_of sending) slots.old }
{
    let mut next = 0;
    for device in 0..24 {
        if (sending.to >> device) % 2 == 1 {
            let Some(place) = first_free(&slots[next..]) else {
                return;
            };
            slots[next + place] = Slot {
                message: sending.message.addressed_to(device),
            };
            next += place + 1;
        }
    }
}

// One step, told whether the state is one, so that many steps need one look at it. The rule sees the acting device's parts, its effect is stored, and its messages are laid.
// A refusal gives the parts as they came, so that storing them changes nothing.
fn take(run: &mut Run, proper: bool, step: Step) -> Outcome
    ensures { record { outcome = result; run = run.new } ≡ taken_if proper step run.old }
{
    let slot = slot_of(step);
    let message = run.slots[slot].message;
    let device = device_of(step, message);
    let tablet = place_within(8, device);
    let effect = rules::effect_of(
        proper,
        step,
        message,
        Here {
            contents: run.devices[device],
            tablet: run.tablets[tablet],
            listed: run.listed,
            free: counted(step, &run.slots),
            stopped: (run.stopped >> device) % 2 == 1,
        },
    );
    run.slots[slot] = freed(run.slots[slot], effect.frees);
    run.devices[device] = effect.contents;
    run.tablets[tablet] = effect.tablet;
    run.listed = effect.listed;
    run.stopped = stopped_after(run.stopped, effect.stops, device);
    run.kept = devices::kept_after(effect.outcome, run.kept);
    lay(&mut run.slots, effect.sending);
    effect.outcome
}

// One step of a run.
#[tactic(auto, unfolding(crate::specs::Steps::taken))]
pub fn step(mut run: Run, step: Step) -> Stepped
    ensures { StepPromise step run result }
{
    let proper = is_proper(&run);
    let outcome = take(&mut run, proper, step);
    Stepped { outcome, run }
}

pub fn ask(run: Run, tablet: u8, notes: u16, added: u16, removed: u16) -> Stepped
    ensures { StepPromise (Step.Ask tablet notes (record { added = added; removed = removed })) run result }
{
    let pair = Config { added, removed };
    step(
        run,
        Step::Ask {
            tablet,
            notes,
            pair,
        },
    )
}

pub fn advance(run: Run, tablet: u8) -> Stepped
    ensures { StepPromise (Step.Advance tablet) run result }
{
    step(run, Step::Advance(tablet))
}

pub fn deliver(run: Run, slot: u8) -> Stepped
    ensures { StepPromise (Step.Deliver slot) run result }
{
    step(run, Step::Deliver(slot))
}

pub fn lose(run: Run, slot: u8) -> Stepped
    ensures { StepPromise (Step.Lose slot) run result }
{
    step(run, Step::Lose(slot))
}

pub fn repeat(run: Run, slot: u8) -> Stepped
    ensures { StepPromise (Step.Repeat slot) run result }
{
    step(run, Step::Repeat(slot))
}

pub fn stop(run: Run, device: u8) -> Stepped
    ensures { StepPromise (Step.Stop device) run result }
{
    step(run, Step::Stop(device))
}

// Whether a box may be unplugged: exactly where it is in the removed set of the kept join.
#[tactic(auto, unfolding(crate::specs::Steps::may_unplug))]
pub fn may_unplug(run: Run, number: u8) -> Result<bool, Refusal>
    ensures { UnplugPromise run number result }
{
    if !is_proper(&run) {
        return Err(Refusal::NoState);
    }
    if 15 < number {
        return Err(Refusal::OutOfRange);
    }
    Ok((run.kept.config.removed >> number) % 2 == 1)
}
