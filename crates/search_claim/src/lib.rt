// The search over any list of calls: how many highest figures the longest river has, and the claim that a search of lists as they were left
// tells whether a segment is above.
#![tactic(auto)]

ghost use Rattle.std.specs.Prelude.{◌≡◌};
ghost use Rattle.model.specs.Ranges.{most_segments};
ghost use Rattle.model.specs.Highest.{block_count};
ghost use Rattle.model.specs.SearchClaim.{SearchTold, PoolSearchTold};

// One for each sixteen of 1,024 segments.
pub fn most_blocks() -> u32
    ensures value { result ≡ block_count most_segments }
    ensures search_told { SearchTold }
    ensures pool_search_told { PoolSearchTold }
{
    64
}
