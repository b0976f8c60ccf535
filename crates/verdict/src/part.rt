// What is judged.

ghost use Rattle.std.specs.Prelude.{length};
ghost use Rattle.block.specs.Bytes.{Bytes};
ghost use Rattle.answers.specs.Passing.{Sizes};

use answers::Places;

// A sector's three places, in the lengths that the checks let pass.
#[derive(Clone, Copy)]
pub struct Part<'a> {
    pub places: Places<'a>,
    pub ghost sizes: { Sizes (length places.local.now) (length places.remote.now) (length places.local.now) (length places.tag.now) },
}

impl Part<'_> {
    // Its places have bytes, as every slice has: what the proofs of judging ask for. Nothing is done.
    pub(crate) fn has_bytes(&self)
        ensures local { Bytes self.now.places.local.now }
        ensures tag { Bytes self.now.places.tag.now }
        ensures remote { Bytes self.now.places.remote.now }
    {
        has_bytes(self.places.local);
        has_bytes(self.places.tag);
        has_bytes(self.places.remote);
    }
}

#[tactic(auto, using(block::proofs::Lists::bytes_all))]
fn has_bytes(slice: &[u8])
    ensures { Bytes slice.now }
{}
