// A window that a text is read through which is longer than the window: what is not read yet moves to the front, so that more fits behind it.
ghost use Rattle.text.specs.Window.{Within, Slid};

// Moves the bytes from `at` up to `end` to the front, and returns how many they are.
pub fn slide(window: &mut [u8], at: usize, end: usize) -> usize
    requires { Within at end window.old }
    ensures { Slid at end window.old result window.new }
{
    window.copy_within(at..end, 0);
    end - at
}
