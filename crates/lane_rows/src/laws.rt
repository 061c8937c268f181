//! Laws: what is needed stays needed towards the start, and alive nets have rows of their own.
ghost use Rattle.std.specs.Prelude.{◌≡◌, ℕ, ◌≤◌, true, List, Option};
ghost use Rattle.fault_secure.specs.Circuit.{Circuit};
ghost use Rattle.tsc_net.specs.Order.{fan_ins, IsOrder};
ghost use Rattle.lane_rows.specs.Alive.{is_needed};
ghost use Rattle.lane_rows.specs.Rows.{RowsApart, AliveApart};

/// What is needed from a place on is needed from every earlier place on.
pub fn needed_before()
    ensures before { (C : Circuit) (order watched : List ℕ) (place later net : ℕ) → place ≤ later
        → is_needed C order watched later net ≡ true → is_needed C order watched place net ≡ true }
{}

/// Where rows stay apart, no two nets that are alive at one place have the same row.
pub fn alive_rows_apart()
    ensures apart { (C : Circuit) (order watched : List ℕ) (rows : List (Option ℕ)) → IsOrder (fan_ins C) order
        → RowsApart C order watched rows → AliveApart C order watched rows }
{}
