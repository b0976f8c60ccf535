// A sector's parts of a volume's three images, lent on with a prepared key: to judging, to the sealing of one side, and to comparing.
#![tactic(auto)]

ghost use Rattle.std.specs.Prelude.{◌≡◌, ◌+◌, ◌*◌, ◌<◌, ◌≤◌, ◌%◌, length};
ghost use Rattle.block.specs.Bytes.{to_bytes, part, patch, same};
ghost use Rattle.block.specs.Value.{value};
ghost use Rattle.mode.specs.Lent.{scheme_lent};
ghost use Rattle.mode.specs.declared.Direction.TheVariants.{SealLocal};
ghost use Rattle.mode.specs.Transforms.{transformed_by};
ghost use Rattle.answers.specs.Answers.{judged_number};
ghost use Rattle.answers.specs.Lent.{triple_of};
ghost use Rattle.verdict.specs.Judging.{judged_by};
ghost use Rattle.history.specs.Volume.{sector_of};
ghost use Rattle.images.specs.Lent.{Within, Scratch};

use answers::{Found, Places, Refusal};
use block::Block;
use mode::{Direction, Keyed, Pads};
use verdict::Part;

// A sector of a volume's three images, to be read: its parts lie within them.
#[derive(Clone, Copy)]
pub struct Sector<'a> {
    pub images: Places<'a>,
    pub size: usize,
    pub number: usize,
    pub ghost within: { Within size number (length images.local.now) (length images.tag.now) (length images.remote.now) },
}

impl<'a> Sector<'a> {
    // The sector's three places.
    #[tactic(auto, using(crate::proofs::Parts::lent_sector))]
    pub fn places(&self) -> Places<'a>
        ensures { triple_of result ≡ sector_of self.now.size self.now.number (triple_of self.now.images) }
    {
        let start = self.number * self.size;
        let end = start + self.size;
        let tag_start = self.number * 16;
        let tag_end = tag_start + 16;
        Places {
            local: &self.images.local[start..end],
            tag: &self.images.tag[tag_start..tag_end],
            remote: &self.images.remote[start..end],
        }
    }
}

// Judges a sector with a prepared key.
pub fn judge_part(
    keyed: &Keyed,
    tweak: Block,
    sector: &Sector,
    out: &mut [u8],
    sum: &mut [u8],
    scratch: &mut [u8],
) -> Result<Found, Refusal>
    requires { Scratch sector.now.size out.old sum.old scratch.old }
    ensures { judged_by (scheme_lent keyed.now) (value tweak) (sector_of sector.now.size sector.now.number (triple_of sector.now.images)) out.old
        ≡ (judged_number result, out.new) }
{
    let part = Part {
        places: sector.places(),
    };
    verdict::judge_in(keyed, tweak, &part, out, sum, scratch)
}

// Writes a side of p, whose tag is g, to sector i of an image: the image's part is lent to the sealing of that side.
#[tactic(auto, using(crate::proofs::Parts::lent_written))]
pub fn write_side(pads: &Pads, how: Direction, g: Block, p: &[u8], i: usize, image: &mut [u8])
    requires { (length p.now % 16 ≡ 0) × (length p.now ≤ 4096) × (i < 65536) × (i * length p.now + length p.now ≤ length image.old) }
    ensures { image.new ≡ patch (length p.now) i (transformed_by how pads.now.words.now (value g) p.now) image.old }
{
    let start = i * p.len();
    let end = start + p.len();
    mode::transform(pads, how, g, p, &mut image[start..end]);
}

// Writes a tag to sector i of the tags.
#[tactic(auto, using(crate::proofs::Parts::stored_written))]
pub fn write_tag(g: Block, i: usize, tags: &mut [u8])
    requires { (i < 65536) × (i * 16 + 16 ≤ length tags.old) }
    ensures { tags.new ≡ patch 16 i (to_bytes 16 (value g)) tags.old }
{
    g.store(tags, i * 16);
}

// Whether sector i of the local image is p's local sector, where p's tag is g.
pub fn fits_local(
    pads: &Pads,
    g: Block,
    p: &[u8],
    i: usize,
    local: &[u8],
    scratch: &mut [u8],
) -> bool
    requires { (length p.now % 16 ≡ 0) × (length p.now ≤ 4096) × (i < 65536) × (i * length p.now + length p.now ≤ length local.now)
        × (length scratch.old ≡ length p.now) }
    ensures { result ≡ same (part (length p.now) i local.now) (transformed_by SealLocal pads.now.words.now (value g) p.now) }
{
    let start = i * p.len();
    let end = start + p.len();
    mode::transform(pads, Direction::SealLocal, g, p, scratch);
    local[start..end] == scratch[..]
}

// Whether sector i of the tags is g.
pub fn fits_tag(g: Block, i: usize, tags: &[u8]) -> bool
    requires { (i < 65536) × (i * 16 + 16 ≤ length tags.now) }
    ensures { result ≡ same (part 16 i tags.now) (to_bytes 16 (value g)) }
{
    Block::load(tags, i * 16) == g
}
