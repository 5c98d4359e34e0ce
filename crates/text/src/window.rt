// A window on a text that is longer than it.
ghost use Rattle.std.specs.Prelude.{◌≡◌, length};
ghost use Rattle.text.specs.inner.Window.{rest, moved};

// Moves what is left from a place on of the bytes that a window holds to its front, and answers how many they are.
#[tactic(auto, unfolding(crate::specs::inner::Window::moved))]
pub fn keep_rest(window: &mut [u8], at: usize, filled: usize) -> usize
    ensures value { result ≡ length (rest window.old at filled) }
    ensures window_after { window.new ≡ moved window.old at filled }
{
    let end = filled.min(window.len());
    if end < at {
        return 0;
    }
    window.copy_within(at..end, 0);
    end - at
}
