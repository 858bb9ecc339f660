// Ask: the notes and the pair are merged in, and a round begins.
ghost use Rattle.std.specs.Prelude.{◌≡◌, ◌<◌, ◌^◌};
ghost use Rattle.rules.specs.Rules.{ask_with, ask_pair, ask};

use crate::refusing::stopped;
use crate::rounds::begin;
use books::{Config, Listed, Notes};
use devices::{Accepted, Contents, Effect, Here, Phase};
use refusals::Refusal;
use sets::Joins;

// The notes and the pair, as a set of listed changes, are merged in, and a round begins.
#[tactic(auto, unfolding(crate::specs::Rules::ask_with))]
fn ask_with(tablet: u8, own: u16, pair: u8, listed: Listed, h: Here) -> Result<Effect, Refusal>
    ensures { result ≡ ask_with tablet own pair listed h }
{
    let asked = Contents {
        v: h.contents.v,
        candidates: Notes::own(tablet, own),
        t: pair,
    };
    let c = h.contents.merge(listed, asked);
    begin(tablet, Accepted::Done, None, listed, c, h)
}

// The set of one listed change. The sets of one device and one box (devices) and of one stopped device (parlour) differ from it in the type
// and the offset, and no bound says what `<<` gives: one generic function could not promise it.
fn only_change(place: usize) -> u8
    requires { place < 8 }
    ensures { result ≡ 2 ^ place }
{
    1 << place
}

// A pair that is contained in v is named by no change; one that is listed by its place; another is listed behind the others.
#[tactic(auto, unfolding(crate::specs::Rules::ask_pair, books::specs::Queried::with_change))]
fn ask_pair(tablet: u8, own: u16, pair: Config, h: Here) -> Result<Effect, Refusal>
    ensures { result ≡ ask_pair tablet own pair h }
{
    let listed = h.listed;
    if pair.is_inside(h.contents.v.config) {
        return ask_with(tablet, own, 0, listed, h);
    }
    let place = listed.place_of(pair);
    if place < listed.count {
        return ask_with(tablet, own, only_change(place), listed, h);
    }
    let count = listed.count;
    if 5 < count {
        return Err(Refusal::SeventhChange);
    }
    let mut more = listed;
    more.changes[count] = pair;
    more.count = count + 1;
    ask_with(tablet, own, only_change(count), more, h)
}

#[tactic(auto, unfolding(crate::specs::Rules::ask))]
pub(crate) fn ask_rule(tablet: u8, own: u16, pair: Config, h: Here) -> Result<Effect, Refusal>
    ensures { result ≡ ask tablet own pair h }
{
    stopped(h)?;
    match h.tablet.phase {
        Phase::Idle => ask_pair(tablet, own, pair, h),
        Phase::Asks(_) => Err(Refusal::Asking),
    }
}
