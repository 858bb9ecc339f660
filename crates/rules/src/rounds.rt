// How a round begins.
ghost use Rattle.std.specs.Prelude.{◌≡◌};
ghost use Rattle.rules.specs.Rules.{begun};

use crate::refusing::{next_round, too_few_slots};
use books::{Book, Listed};
use devices::{Accepted, Asking, Contents, Effect, Here, Letter, Message, Phase, Sending, Tablet};
use refusals::Refusal;

// A round begins with these contents, floor and listed changes. The tablet's number comes beside `Here`: that is what the rule of every step
// sees, and only Ask and Advance have a tablet's number, so specs/Rules.antt takes the two apart too;
// likewise an Ask's notes and pair, and the message of a slot.
#[tactic(auto, unfolding(crate::specs::Rules::begun))]
pub(crate) fn begin(
    tablet: u8,
    answer: Accepted,
    floor: Option<Book>,
    listed: Listed,
    c: Contents,
    h: Here,
) -> Result<Effect, Refusal>
    ensures { result ≡ begun tablet answer floor listed c h }
{
    let round = next_round(h)?;
    let boxes = listed.asked_boxes(c.v.config, c.t);
    too_few_slots(sets::count_boxes(boxes) as usize, h)?;
    Ok(Effect {
        contents: c,
        tablet: Tablet {
            round,
            phase: Phase::Asks(Asking {
                config: c.v.config,
                t: c.t,
                candidates: c.candidates,
                answered: 0,
                floor,
            }),
        },
        listed,
        sending: Sending {
            message: Message::Request(Letter {
                from: tablet,
                to: 0,
                round,
                contents: c,
            }),
            to: (boxes as u32) << 8,
        },
        ..h.unchanged(Ok(answer))
    })
}
