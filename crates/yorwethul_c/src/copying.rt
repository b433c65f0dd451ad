//! How an answer gets into the caller's memory.

ghost use Rattle.std.specs.Prelude.{◌≡◌, length, string_bytes};
ghost use Rattle.yorwethul_c.specs.Answers.{number_of, with_text};

use crate::answers::Answer;

/// Puts the text of the answer to the front of `out`, if there is room for it, and its length into
/// `needed`. It gives the number of the status.
pub fn hand_out(answer: Answer, out: &mut [u8], needed: &mut usize) -> u32
    ensures status { result ≡ number_of answer.status }
    ensures needed { needed.new ≡ length (string_bytes answer.text) }
    ensures out { out.new ≡ with_text (string_bytes answer.text) out.old }
{
    let text = answer.text.as_bytes();
    *needed = text.len();
    put(text, out);
    answer.status.number()
}

/// Copies the text to the front of `out`, if there is room for it.
fn put(text: &[u8], out: &mut [u8])
    ensures { out.new ≡ with_text text.now out.old }
{
    if text.len() <= out.len() {
        let (room, _) = out.split_at_mut(text.len());
        room.copy_from_slice(text);
    }
}
