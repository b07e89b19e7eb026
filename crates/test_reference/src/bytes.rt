// Bytes in a place of their own, with room for N.
ghost use Rattle.std.specs.Prelude.{◌≡◌, ◌≤◌, List, ℕ, replicate, take};
ghost use Rattle.std.specs.Fn.{FnOnceReturnsAtMut};

// Bytes, and how many there are; none are read where there was no room for all. No Vec: the memory of the tests is fixed.
#[derive(Clone, Copy)]
pub struct Bytes<const N: usize> {
    pub room: [u8; N],
    pub len: usize,
}

impl<const N: usize> Bytes<N> {
    // What a call puts into N zeros, which tells how many bytes that are.
    pub fn put<F: FnOnce(&mut [u8]) -> usize>(put: F) -> Bytes<N>
        requires { F.IsAlwaysCallable put }
        ensures { FnOnceReturnsAtMut F.FnOnce put (replicate N 0) result.len result.room }
    {
        let mut room = [0u8; N];
        let len = put(&mut room);
        Bytes { room, len }
    }

    pub fn as_slice(&self) -> &[u8]
        ensures { self.now.len ≤ N → result.now ≡ take self.now.len self.now.room }
    {
        self.room.get(..self.len).unwrap_or(&[])
    }
}
