ghost use Rattle.std.specs.Prelude.{◌≡◌};
ghost use Rattle.format.specs.Reading.{reading, layout_numbers, spread};

use format::layout::Layout;

/// A rule unit: lent bytes that are one, and where its parts lie in them.
#[derive(Clone, Copy, Debug)]
pub struct Unit<'a> {
    pub(crate) bytes: &'a [u8],
    pub(crate) layout: Layout,
    ghost reads: { layout_numbers (reading bytes.now) ≡ spread layout },
}
