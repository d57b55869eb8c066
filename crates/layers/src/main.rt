// Runs each layer of the retimer on the course sheets and at the edges. What is expected stands in the file `stdout`, written from document 01.
#![tactic(auto)]

mod calls;
mod clocks;
mod comparison;
mod guarded;
mod lamp;
mod limits;
mod liveness;
mod lookup;
mod optimum;
mod outlook;
mod print;
mod replay;
mod sheets;

use std::io;

fn main(rt: HostRuntime) -> io::Result<()> {
    limits::all(&rt)?;
    clocks::waits(&rt)?;
    clocks::resets(&rt)?;
    comparison::cases(&rt)?;
    comparison::ends(&rt)?;
    comparison::readings(&rt)?;
    clocks::bounds(&rt)?;
    sheets::course(&rt)?;
    sheets::fronts(&rt)?;
    sheets::dates(&rt)?;
    lookup::one_clock(&rt)?;
    lookup::two_clocks(&rt)?;
    liveness::one_clock(&rt)?;
    liveness::two_clocks(&rt)?;
    optimum::one_clock(&rt)?;
    optimum::two_clocks(&rt)?;
    outlook::single(&rt)?;
    outlook::lists(&rt)?;
    outlook::two_clocks(&rt)?;
    lamp::all(&rt)?;
    replay::keys(&rt)?;
    replay::edges(&rt)?;
    replay::numbers(&rt)?;
    replay::dates(&rt)?;
    calls::all(&rt)
}
