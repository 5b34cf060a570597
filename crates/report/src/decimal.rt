// Numbers in decimal digits: the struct alone, so that definitions in specs may name it; `methods` makes and reads it.
ghost use Rattle.std.specs.Prelude.{◌≡◌, ◌≤◌, length};

mod methods;

/// The digits of one number, at the end of an array that any number fits: nothing is allocated.
#[derive(Drop)]
pub struct Digits {
    bytes: [u8; 20],
    start: usize,
    ghost whole: { length bytes ≡ 20 },
    ghost within: { start ≤ 20 },
}
