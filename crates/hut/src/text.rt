// What drawers and letters hold: at most 4,096 bytes.
ghost use Rattle.std.specs.Prelude.{◌≡◌, ◌<◌, ◌≤◌, true, [], length, IfOk, MatchOption};
ghost use Rattle.machine.specs.Run.{bytes};

use machine::LETTER;
use std::alloc::{AllocError, Global};

#[derive(Drop)]
pub struct Text {
    pub text: Vec<u8>,
    ghost fits: { bytes text.items ≡ true },
}

impl Text {
    #[tactic(auto, unfolding(sums::specs::Sums::every))]
    pub fn empty(heap: Global) -> Text
        ensures { result.text.items ≡ [] }
    {
        Text {
            text: Vec::new(heap),
        }
    }

    // These bytes; none where they are too many.
    pub fn new(heap: Global, from: &[u8]) -> Result<Option<Text>, AllocError>
        ensures { IfOk result (λ o. MatchOption o (4096 < length from.now) (λ t. t.text.items ≡ from.now)) }
    {
        if from.len() > LETTER {
            return Ok(None);
        }
        Ok(Some(Text::copied(heap, from)?))
    }

    pub fn copied(heap: Global, from: &[u8]) -> Result<Text, AllocError>
        requires { length from.now ≤ 4096 }
        ensures { IfOk result (λ t. t.text.items ≡ from.now) }
    {
        let text = Vec::from_slice(heap, from)?;
        Ok(Text { text })
    }
}
