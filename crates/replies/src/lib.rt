// Replies in a lent buffer: number, place, values, then zeros. Inner.
#![tactic(auto)]

ghost use Rattle.std.specs.Prelude.{◌≡◌, ◌≤◌, ◌+◌, ◌∷◌, length, IfOk};
ghost use Rattle.refusal.specs.Buffers.{padded};
ghost use Rattle.refusal.specs.Told.{reply_of};
ghost use Rattle.replies.specs.Replies.{reply_words, accepted, buffer_with, few_values, part_values};
ghost use Rattle.replies.specs.Part.{words_of};

use refusal::{Refusal, Told};

// The least length of a reply's buffer.
pub const REPLY_WORDS: usize = 64;

// The words of a refusal, or of an answer's values behind number 0 and place 0; 1. A buffer that is too short is left alone: 0.
#[tactic(auto, unfolding(crate::specs::Replies::buffer_with))]
pub fn write_answer<T: Told>(reply: &mut [u64], answer: Result<T, Refusal>) -> u64
    requires { IfOk answer (λ x. length (T.values x) ≤ few_values) }
    ensures returned { result ≡ accepted reply.old }
    ensures written { reply.new ≡ buffer_with (reply_words (reply_of T.values answer)) reply.old }
{
    if reply.len() < REPLY_WORDS {
        return 0;
    }
    match answer {
        Ok(value) => tell_reply(0, 0, value, reply),
        Err(refusal) => {
            let number = refusal.kind.number() as u64;
            tell_reply(number, refusal.place, (), reply)
        }
    }
    1
}

// A reply in three parts.
#[tactic(auto, using(refusal::proofs::Zeroing::padded_first))]
fn tell_reply<T: Told>(number: u64, place: u64, values: T, reply: &mut [u64])
    requires { 2 + length (T.values values) ≤ length reply.old }
    ensures { reply.new ≡ padded (number ∷ place ∷ T.values values) (length reply.old) }
{
    let (front, rest) = reply.split_at_mut(1);
    front[0] = number;
    refusal::tell_with(place, values, rest);
}

// A part of a list in three numbers: how many words it has, the first and the last of them.
#[derive(Clone, Copy)]
pub struct Part {
    count: u64,
    first: u64,
    last: u64,
}

impl Part {
    pub fn of(part: &[u64]) -> Part
        ensures { words_of result ≡ part_values part.now }
    {
        Part {
            count: part.len() as u64,
            first: part.first().copied().unwrap_or(0),
            last: part.last().copied().unwrap_or(0),
        }
    }
}

impl Told for Part {
    ghost values = { words_of };

    #[tactic(auto, using(refusal::proofs::Zeroing::padded_first))]
    fn tell(self, out: &mut [u64]) {
        let (front, rest) = out.split_at_mut(1);
        front[0] = self.count;
        refusal::tell_with(self.first, self.last, rest);
    }
}
