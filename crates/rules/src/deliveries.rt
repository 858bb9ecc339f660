// Deliver: the addressee hears a request, an answer or a commit.
ghost use Rattle.std.specs.Prelude.{◌≡◌};
ghost use Rattle.devices.specs.declared.Message.{Message};
ghost use Rattle.rules.specs.Rules.{heard, marked, deliver};

use crate::refusing::stopped;
use devices::{
    Accepted, Asking, Contents, Effect, Here, Letter, Message, Notice, Phase, Sending, Tablet,
};
use refusals::Refusal;
use sets::Joins;

// What a delivery leaves.
fn hear(contents: Contents, tablet: Tablet, sending: Sending, h: Here) -> Effect
    ensures { result ≡ heard contents tablet sending h }
{
    Effect {
        contents,
        tablet,
        frees: true,
        sending,
        ..h.unchanged(Ok(Accepted::Done))
    }
}

// A tablet that is asking marks the box of an answer of its own round.
#[tactic(auto, unfolding(crate::specs::Rules::marked))]
fn mark(l: Letter, x: Tablet) -> Tablet
    ensures { result ≡ marked l x }
{
    match x.phase {
        Phase::Asks(a) if l.round == x.round => Tablet {
            phase: Phase::Asks(Asking {
                answered: a.answered.join(devices::box_of(l.from)),
                ..a
            }),
            ..x
        },
        _ => x,
    }
}

// A box hears a request and answers its sender.
#[tactic(auto, unfolding(crate::specs::Rules::deliver))]
fn hear_request(l: Letter, h: Here) -> Result<Effect, Refusal>
    ensures { result ≡ deliver (Message.Request l) h }
{
    stopped(h)?;
    let contents = h.contents.merge(h.listed, l.contents);
    let answer = Sending {
        message: Message::Answer(Letter {
            from: l.to,
            to: l.from,
            round: l.round,
            contents,
        }),
        to: devices::only_device(l.from),
    };
    Ok(hear(contents, h.tablet, answer, h))
}

// A tablet hears an answer.
#[tactic(auto, unfolding(crate::specs::Rules::deliver))]
fn hear_answer(l: Letter, h: Here) -> Result<Effect, Refusal>
    ensures { result ≡ deliver (Message.Answer l) h }
{
    stopped(h)?;
    let contents = h.contents.merge(h.listed, l.contents);
    Ok(hear(contents, mark(l, h.tablet), Sending::none(), h))
}

// A device hears a commit.
#[tactic(auto, unfolding(crate::specs::Rules::deliver))]
fn hear_commit(n: Notice, h: Here) -> Result<Effect, Refusal>
    ensures { result ≡ deliver (Message.Commit n) h }
{
    stopped(h)?;
    let brought = Contents {
        v: n.book,
        candidates: n.book.notes,
        t: 0,
    };
    let contents = h.contents.merge(h.listed, brought);
    Ok(hear(contents, h.tablet, Sending::none(), h))
}

#[tactic(auto, unfolding(crate::specs::Rules::deliver))]
pub(crate) fn deliver_rule(m: Message, h: Here) -> Result<Effect, Refusal>
    ensures { result ≡ deliver m h }
{
    match m {
        Message::Empty => Err(Refusal::EmptySlot),
        Message::Request(l) => hear_request(l, h),
        Message::Answer(l) => hear_answer(l, h),
        Message::Commit(n) => hear_commit(n, h),
    }
}
