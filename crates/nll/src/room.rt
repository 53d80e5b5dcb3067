// Refusal 10: how many words and bytes an answer takes.
ghost use Rattle.std.specs.Prelude.{◌≡◌, ◌≤◌};
ghost use Rattle.nll.specs.Steps.{shape_of, room_for};

use infer::Shape;
use record::Head;

// How many words a set takes, and how many points there are.
pub fn shape_of(head: Head) -> Shape
    ensures { (result ≡ shape_of head) × (result.width ≤ 2056) × (result.points ≤ 65790) }
{
    let code = usize::from(head.code);
    let points = code + usize::from(head.declared);
    Shape {
        width: points.div_ceil(32),
        code,
        points,
    }
}

// Whether so many words and bytes have room for the answer.
pub fn has_room(head: Head, words: usize, bytes: usize) -> bool
    ensures { result ≡ room_for head words bytes }
{
    let shape = shape_of(head);
    usize::from(head.regions) * shape.width <= words
        && 2 * shape.points + usize::from(head.declared) <= bytes
}
