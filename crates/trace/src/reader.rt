ghost use Rattle.std.specs.Prelude.{◌+◌, ◌*◌, ◌^◌, ◌<◌, length};

/// What is left of a trace, and the place of its first word. A word has four bytes.
#[derive(Clone, Copy)]
pub struct Reader<'t> {
    rest: &'t [u8],
    place: usize,
    ghost within: { 4 * place + length rest.now < 2 ^ 64 },
}

mod items;
pub mod reading;
mod sizes;
mod words;
