// A volume's images, as the survey lends them on.

ghost use Rattle.std.specs.Prelude.{length};
ghost use Rattle.images.specs.Lent.{Room};

use answers::Places;

// Three images, to be read: those of `count` sectors of `size` bytes.
#[derive(Clone, Copy)]
pub struct Images<'a> {
    pub places: Places<'a>,
    pub size: usize,
    pub count: usize,
    pub ghost room: { Room size count (length places.local.now) (length places.tag.now) (length places.remote.now) },
}
