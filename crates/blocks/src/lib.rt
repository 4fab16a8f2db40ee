// The highest channel figure of each sixteen segments, which a start or a step leaves beside the lists. Sixteen segments are a block.
#![tactic(auto)]

ghost use Rattle.std.specs.Prelude.{◌≡◌, ◌+◌, ◌≤◌, length, get_or};
ghost use Rattle.lists.specs.Lists.{over, highest_below};
ghost use Rattle.model.specs.Ranges.{most_segments};
ghost use Rattle.model.specs.Highest.{block_count, highest_of};

// The segments of a block.
pub const BLOCK: usize = 16;

// The blocks of n segments: one for each sixteen begun.
pub fn count(n: u32) -> usize
    ensures { result ≡ block_count n }
{
    (n as usize).div_ceil(BLOCK)
}

// The highest of `count` figures from `from` on.
// By index, here and below, as the definitions have a block: by its place and its count.
fn highest_from(channel: &[u32], from: usize, count: usize) -> u32
    requires { from + count ≤ length channel.now }
    ensures { result ≡ highest_below count (λ j. get_or channel.now (from + j) 0) }
{
    let mut top: u32 = 0;
    for j in 0..count {
        top = top.max(channel[from + j]);
    }
    top
}

// Writes the highest figure of each block of n segments over the first entries of the list; the last block may not be full.
pub fn fill(n: usize, channel: &[u32], highest: &mut [u32])
    requires { (n ≤ most_segments) × (n ≤ length channel.now) × (block_count n ≤ length highest.old) }
    ensures { highest.new ≡ over (highest_of n channel.now) highest.old }
{
    for b in 0..n.div_ceil(BLOCK) {
        let from = b * BLOCK;
        highest[b] = highest_from(channel, from, BLOCK.min(n - from));
    }
}
