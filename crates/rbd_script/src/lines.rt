ghost use Rattle.std.specs.Prelude.{◌≡◌, ◌∷◌, [], ◌<◌, length, IfSome, IfNone};
ghost use Rattle.rbd_script.specs.Token.{text_lines};

use crate::place::place_of;

/// The first line that ends with a line feed, and the text behind it.
pub fn first_line(text: &[u8]) -> Option<(&[u8], &[u8])>
    ensures found { IfSome result (λ t. text_lines text.now ≡ t.0.now ∷ text_lines t.1.now) }
    ensures shorter { IfSome result (λ t. length t.1.now < length text.now) }
    ensures none { IfNone result (text_lines text.now ≡ text.now ∷ []) }
{
    let (line, behind) = text.split_at(place_of(b'\n', text));
    match behind {
        [] => None,
        [_, rest @ ..] => Some((line, rest)),
    }
}
