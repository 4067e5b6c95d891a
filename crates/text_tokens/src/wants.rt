// What is wanted behind a byte.
ghost use Rattle.std.specs.Prelude.{◌≤◌};

// New wants, the topmost first: the bytes from the first on. Those before it mean nothing: they are there so
// that it is always five that are stored.
#[derive(Clone, Copy)]
pub struct Wants {
    pub first: usize,
    pub bytes: [u8; 5],
    ghost inside: { first ≤ 5 },
}
