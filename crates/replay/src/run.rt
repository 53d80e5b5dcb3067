// Boundary cases, as a file of recorded answers.
ghost use Rattle.std.specs.Prelude.{◌≡◌, ◌+◌, ◌≤◌, length};
ghost use Rattle.buffer.specs.Appending.{Appends};
ghost use Rattle.replay.specs.Run.{most_actions, too_many_actions, third_grows, too_long, run_file};

use super::room::FileBytes;

// A block of 64 actions: accepted, 65 points and no fault.
fn most_actions(file: &mut FileBytes)
    requires { length file.old + 211 ≤ 1048576 }
    ensures { Appends most_actions file.old file.new }
{
    file.put(b"\x00\x4a\x01\x00\x47\x00\x00\x00\x00\x01\x00\x40");
    file.put(&[0; 64]);
    file.put(b"\x00\x00\x00\x00\x82");
    file.put(&[0; 130]);
}

// A block of 65 actions: 4.
fn too_many_actions(file: &mut FileBytes)
    requires { length file.old + 82 ≤ 1048576 }
    ensures { Appends too_many_actions file.old file.new }
{
    file.put(b"\x00\x4b\x01\x00\x48\x00\x00\x00\x00\x01\x00\x41");
    file.put(&[0; 65]);
    file.put(b"\x04\x00\x00\x00\x00");
}

// Case 9 where 1 outlives 0, and a third declared region: 1 is grown.
fn third_declared(file: &mut FileBytes)
    requires { length file.old + 66 ≤ 1048576 }
    ensures { Appends third_grows file.old file.new }
{
    file.put(
        b"\x00\x20\x01\x00\x1d\x00\x03\x03\x02\x01\x00\x01\x00\x00\x01\x01\x00\x00\x00\x01\x01\x00\x01\x00\x00\x02\x03\x00\x00\x00\x01\x05\x00\x00",
    );
    file.put(b"\x00\x00\x03\x00\x00\x00\x0f\x00\x00\x00\x3f\x00\x00\x00\x27\x00\x0f");
    file.put(&[0; 13]);
    file.put(b"\x01\x00");
}

// A length of 16,385: 2.
fn too_long(file: &mut FileBytes)
    requires { length file.old + 16395 ≤ 1048576 }
    ensures { Appends too_long file.old file.new }
{
    file.put(b"\x40\x04\x01\x40\x01");
    file.put(&[0; 16385]);
    file.put(b"\x02\x00\x00\x00\x00");
}

// Makes the file of the four cases.
pub fn cases(file: &mut FileBytes)
    ensures { file.new ≡ run_file }
{
    file.clear();
    file.put(b"\x00\x04");
    most_actions(file);
    too_many_actions(file);
    third_declared(file);
    too_long(file);
}
