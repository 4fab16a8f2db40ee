// Is any of the river above the limit? The search looks only into blocks of sixteen segments whose highest figure is above it.
#![tactic(auto)]

ghost use Rattle.std.specs.Prelude.{◌≡◌, ◌||◌, [], ◌∷◌, ◌≤◌, length};
ghost use Rattle.model.specs.Ranges.{most_segments};
ghost use Rattle.model.specs.Calls.{river_fault};
ghost use Rattle.model.specs.Highest.{block_count, blocks_fault};
ghost use Rattle.model.specs.Search.{Finds, SearchAnswer};
ghost use Rattle.model.specs.Pool.{PoolSearchAnswer};
ghost use Rattle.terms.specs.Lent.{table_in};
ghost use Rattle.search.specs.Says.{found_says, search_says};

use blocks::BLOCK;
use limits::{MOST_SEGMENTS, SEGMENTS, outside};
use pool_table::{Table, open_slot};
use terms::{Fault, Refusal};

// The loops over the blocks and their segments; both are left with the segment found, which counts from 1, by the label that document 01 asks for.
fn find(n: usize, channel: &[u32], highest: &[u32], limit: u32) -> Option<u32>
    requires { (n ≤ most_segments) × (n ≤ length channel.now) × (block_count n ≤ length highest.now) }
    ensures { Finds n channel.now highest.now limit (found_says result) }
{
    let mut found = None;
    'blocks: for b in 0..n.div_ceil(BLOCK) {
        let from = b * BLOCK;
        if limit < highest[b] {
            for i in from..n.min(from + BLOCK) {
                if limit < channel[i] {
                    found = Some(i as u32 + 1);
                    break 'blocks;
                }
            }
        }
    }
    found
}

// 13 of the segment count and the two lists.
#[tactic(auto, unfolding(model::specs::Calls::river_fault, model::specs::Highest::blocks_fault, lists::specs::Lists::any_shorter))]
fn fault(n: u32, channel: &[u32], highest: &[u32]) -> bool
    ensures { result ≡ (river_fault n (channel.now ∷ []) || blocks_fault n highest.now) }
{
    outside(SEGMENTS, u64::from(n))
        || channel.len() < n as usize
        || highest.len() < blocks::count(n)
}

// The search of a river whose lists are its own: 13 alone. Which segment it names is left open, but for what `SearchAnswer` says of it.
pub fn alone(n: u32, channel: &[u32], highest: &[u32], limit: u32) -> Result<Option<u32>, Refusal>
    ensures { SearchAnswer n channel.now highest.now limit (search_says result) }
{
    Fault::ListLength.test(fault(n, channel, highest))?;
    Ok(find(n as usize, channel, highest, limit))
}

// The search of an open river on a pool: 18, and 13, which wants 1,024 entries of the one shared list that it is lent.
pub fn on_pool(
    river: u32,
    channel: &[u32],
    highest: &[u32],
    table: &Table,
    limit: u32,
) -> Result<Option<u32>, Refusal>
    ensures { PoolSearchAnswer (table_in table.now) channel.now river highest.now limit (search_says result) }
{
    let slot = open_slot(*table, river)?;
    Fault::ListLength.test(channel.len() < MOST_SEGMENTS as usize)?;
    alone(slot.segments, &channel[slot.stretch()], highest, limit)
}
