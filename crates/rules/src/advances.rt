// Advance: a commit, an adopted book, or a new round.
ghost use Rattle.std.specs.Prelude.{◌≡◌};
ghost use Rattle.rules.specs.Rules.{hands_back, floor_inside, decided, allowed, steady, or_set, commit, adopt_or, advance_from, advance};

use crate::refusing::{next_round, stopped, too_few_slots};
use crate::rounds::begin;
use books::Book;
use devices::{Accepted, Asking, Effect, Here, Message, Notice, Phase, Sending, Tablet};
use refusals::Refusal;
use sets::Joins;

// The candidates with v's configuration joined with T.
#[tactic(auto, unfolding(crate::specs::Rules::decided))]
fn decide(h: Here) -> Book
    ensures { result ≡ decided h }
{
    let c = h.contents;
    Book {
        notes: c.candidates,
        config: h.listed.joined_with(c.v.config, c.t),
    }
}

// Whether the round has its answers, or v's configuration has moved on.
#[tactic(auto, unfolding(crate::specs::Rules::allowed))]
fn is_allowed(a: Asking, h: Here) -> bool
    ensures { result ≡ allowed a h }
{
    h.contents.v.config != a.config || h.listed.every_majority(a.config, a.t, a.answered)
}

// Whether configuration and T equal the saved.
#[tactic(auto, unfolding(crate::specs::Rules::steady))]
fn is_steady(a: Asking, h: Here) -> bool
    ensures { result ≡ steady a h }
{
    h.contents.v.config == a.config && h.contents.t == a.t
}

// A floor that stays if it is set, and becomes a book if it is unset.
fn floor_or(floor: Option<Book>, b: Book) -> Option<Book>
    ensures { result ≡ or_set floor b }
{
    floor.or(Some(b))
}

// The tablet becomes idle and hands back a book.
fn hand_back(answer: Accepted, sending: Sending, h: Here) -> Effect
    ensures { result ≡ hands_back answer sending h }
{
    Effect {
        tablet: Tablet {
            phase: Phase::Idle,
            ..h.tablet
        },
        sending,
        ..h.unchanged(Ok(answer))
    }
}

// A commit to all 24 devices.
#[tactic(auto, unfolding(crate::specs::Rules::commit))]
fn commit_rule(tablet: u8, b: Book, h: Here) -> Result<Effect, Refusal>
    ensures { result ≡ commit tablet b h }
{
    too_few_slots(24, h)?;
    let sending = Sending {
        message: Message::Commit(Notice {
            from: tablet,
            to: 0,
            book: b,
        }),
        to: 0xff_ffff,
    };
    Ok(hand_back(Accepted::Committed(b), sending, h))
}

// Whether a set floor is contained in v.
fn is_floor_inside(floor: Option<Book>, v: Book) -> bool
    ensures { result ≡ floor_inside floor v }
{
    floor.is_some_and(|b| b.is_inside(v))
}

// Where a set floor is contained in v, v is handed back; else another round begins.
#[tactic(auto, unfolding(crate::specs::Rules::adopt_or, crate::specs::Rules::begun))]
fn adopt_or(tablet: u8, floor: Option<Book>, h: Here) -> Result<Effect, Refusal>
    ensures { result ≡ adopt_or tablet floor h }
{
    let v = h.contents.v;
    if is_floor_inside(floor, v) {
        return Ok(hand_back(Accepted::Adopted(v), Sending::none(), h));
    }
    let round = next_round(h)?;
    begin(
        tablet,
        Accepted::Round(round),
        floor,
        h.listed,
        h.contents,
        h,
    )
}

#[tactic(auto, unfolding(crate::specs::Rules::advance_from))]
fn advance_from(tablet: u8, a: Asking, h: Here) -> Result<Effect, Refusal>
    ensures { result ≡ advance_from tablet a h }
{
    if !is_steady(a, h) {
        return adopt_or(tablet, a.floor, h);
    }
    let b = decide(h);
    if h.contents.candidates == a.candidates {
        return commit_rule(tablet, b, h);
    }
    adopt_or(tablet, floor_or(a.floor, b), h)
}

#[tactic(auto, unfolding(crate::specs::Rules::advance))]
pub(crate) fn advance_rule(tablet: u8, h: Here) -> Result<Effect, Refusal>
    ensures { result ≡ advance tablet h }
{
    stopped(h)?;
    let Phase::Asks(a) = h.tablet.phase else {
        return Err(Refusal::Idle);
    };
    if !is_allowed(a, h) {
        return Err(Refusal::NotAllowed);
    }
    advance_from(tablet, a, h)
}
