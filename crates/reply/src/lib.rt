// Replies read back: code, lines and word of a reply.
#![tactic(auto)]

ghost use Rattle.std.specs.Prelude.{◌≡◌};
ghost use Rattle.model.specs.Replies as reading;

use model::{Answer, Refusal, ReplyReading};

// The reply that begins at a place.
#[tactic(auto, unfolding(model::specs::Replies::reply_reading))]
pub fn reading(replies: &[u8], place: usize) -> ReplyReading
    ensures { result ≡ reading.reply_reading replies.now place }
{
    let left = replies.len().saturating_sub(place);
    if left < 3 {
        return Err(Refusal::Short);
    }
    if replies[place] != 0x81 {
        return Err(Refusal::UnknownTag);
    }
    if u16::from_le_bytes([replies[place + 1], replies[place + 2]]) != 6 {
        return Err(Refusal::WrongLength);
    }
    if left < 9 {
        return Err(Refusal::Short);
    }
    let answer = Answer {
        code: replies[place + 3],
        lines: replies[place + 4],
        word: u32::from_le_bytes([
            replies[place + 5],
            replies[place + 6],
            replies[place + 7],
            replies[place + 8],
        ]),
    };
    Ok((answer, place + 9))
}
