// The cuts that `short` asks for.
ghost use Rattle.std.specs.Prelude.{◌≤◌};

use text::keyword::Slice;

// The slices: the network's twelve, a fix's five, the answer and the decisions.
const SLICES: usize = 19;

// How many entries of each slice the next call gets; all where there is no cut.
#[derive(Clone, Copy)]
pub struct Cuts([Option<u32>; SLICES]);

impl Cuts {
    pub fn none() -> Cuts {
        Cuts([None; SLICES])
    }

    // How many of n entries of a slice the next call gets.
    pub fn cut(&self, slice: Slice, n: usize) -> usize
        ensures { result ≤ n }
    {
        match self.0.get(slice as usize) {
            Some(Some(most)) => n.min(*most as usize),
            _ => n,
        }
    }

    // The next call gets so many entries of a slice.
    pub fn set(&mut self, slice: Slice, most: u32) {
        if let Some(cut) = self.0.get_mut(slice as usize) {
            *cut = Some(most);
        }
    }

    // A call has taken the slices from one to another: they are whole again.
    pub fn release(&mut self, first: Slice, last: Slice) {
        for cut in self
            .0
            .iter_mut()
            .take(last as usize + 1)
            .skip(first as usize)
        {
            *cut = None;
        }
    }

    // The same of a call that takes the network and answers a list.
    pub fn release_asked(&mut self) {
        self.release(Slice::Lengths, Slice::WindowLasts);
        self.release(Slice::Answer, Slice::Answer);
    }
}
