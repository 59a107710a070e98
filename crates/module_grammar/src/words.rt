//! Words.
ghost use Rattle.std.specs.Prelude.{◌≡◌, ◌≤◌, length};
ghost use Rattle.module_grammar.specs.Reading.{word_at};
ghost use Rattle.module_grammar.specs.Reached.{reading, Passes, PassesWithin};

use crate::reach::{Reach, Stop, later};

/// Reads this word, from a place of these bytes on.
pub fn word(text: &[u8], bytes: &[u8], from: Reach) -> Result<Reach, Stop>
    requires { from.at ≤ length bytes.now }
    ensures value { Passes result (reading (word_at text.now) bytes.now from) }
    ensures within { PassesWithin (length bytes.now) result }
{
    let mut same: usize = 0;
    while same < text.len() {
        let at = from.at + same;
        if at == bytes.len() {
            return Err(Stop::Fails {
                far: later(from.far, at),
            });
        }
        if bytes[at] != text[same] {
            return Err(Stop::Fails {
                far: later(from.far, at),
            });
        }
        same += 1;
    }
    let at = from.at + same;
    Ok(Reach {
        at,
        far: later(from.far, at),
    })
}
