//! Two hosts, of which the first is the smallest, and the second has values and natives of its own.
#![tactic(auto)]

mod first_host;
mod money;
mod prices;

use crate::first_host::run_sum;
use crate::prices::run_prices;

fn main(rt: HostRuntime) -> anyhow::Result<()> {
    run_sum(&rt)?;
    Ok(run_prices(&rt)?)
}
