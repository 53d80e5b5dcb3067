// Room for a file.
ghost use Rattle.std.specs.Prelude.{◌≡◌, length, take};

use buffer::Buffer;
use std::io::Read;

// The bytes of a file.
pub type FileBytes = Buffer<1048576>;

// Reads until the room is full, the input ends or a read fails. What is read stands after what there was.
pub fn read<R: Read>(file: &mut FileBytes, input: &mut R)
    ensures { take (length file.old) file.new ≡ file.old }
{
    let mut piece = [0; 4096];
    for _ in 0..u64::MAX {
        let most = file.room().min(4096);
        match input.read(&mut piece[..most]) {
            Ok(0) | Err(_) => break,
            Ok(n) => file.put(&piece[..n]),
        }
    }
}
